// What `rack` replays where no script is named.
pub const DEMONSTRATION: &str =
    "# which remarks may be written, and how many rows they take on a console of 16 columns
admit card 3: erase ok
admit card 3:\\x07 bell
admit \\x1b[31mcard 3 failed\\x1b[0m
admit \\x1b[2K
admit cut \\xe2\\x82
measure 16 plain card 3: erase ok
measure 16 plain \\x1b[31mcard 3 failed\\x1b[0m, erase again
measure 16 house \\xe5\\x8d\\xa1 3: \\xe6\\x93\\xa6\\xe9\\x99\\xa4\\xe5\\xae\\x8c\\xe6\\x88\\x90
measure 1 plain card
# a redraw limiter of 20 draws a second, made at one second: no rate 0, a burst, then one draw each 50 ms
limiter 0 1000000000
limiter 20 1000000000
limiter allow 1000000000
limiter allow 1049999999
limiter allow 999999999
# a bar's position, reported at most ten times at once and then each millisecond
position 1000000000
position set 4096
position get
position allow 1000000000
position reset 1002000000
position get
";
