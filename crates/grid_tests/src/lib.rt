// Grids, executed.
#![tactic(auto)]

#[cfg(test)]
mod tests {
    use grid::{Grid, check};
    use refusal::Refusal;
    use terminal::term_like::TermLike;
    use text::width::{House, Plain};

    #[test]
    fn sizes(rt: HostRuntime) {
        assert_eq!(rt; check(1, 0, &[]), Err(Refusal::Size));
        assert_eq!(rt; check(513, 1, &[32; 600]), Err(Refusal::Size));
        assert_eq!(rt; check(2, 257, &[32; 600]), Err(Refusal::Size));
        assert_eq!(rt; check(2, 2, &[32; 3]), Err(Refusal::Cells));
        assert_eq!(rt; check(2, 2, &[32; 4]), Ok(()));
        assert_eq!(rt; check(2, 256, &[32; 600]), Ok(()));
    }

    // Three rows of three cells, with one behind them.
    #[test]
    fn writes(rt: HostRuntime) {
        let mut cells = [7; 10];
        let mut grid = Grid::new(3, 3, Plain, &mut cells);
        assert_eq!(rt; grid.write_str(b"abcd\x1b[1me"), Ok(()));
        assert_eq!(rt; grid.write_str(b"\t"), Err(Refusal::NotAdmissible(0)));
        assert_eq!(rt; grid.move_cursor_up(9), Ok(()));
        assert_eq!(rt; grid.write_str(b"x"), Ok(()));
        assert_eq!(rt; grid.move_cursor_down(1), Ok(()));
        assert_eq!(rt; grid.write_line(b"yz"), Ok(()));
        assert_eq!(rt; grid.credit(), None);
        drop(grid);
        assert_eq!(rt; cells, [100, 101, 121, 122, 32, 32, 32, 32, 32, 7]);
    }

    #[test]
    fn wide_characters(rt: HostRuntime) {
        let mut cells = [7; 6];
        let mut grid = Grid::new(3, 2, House, &mut cells);
        assert_eq!(rt; grid.write_str(b"ab\xE4\xB8\x80"), Ok(()));
        assert_eq!(rt; grid.char_width(0x4E00), 2);
        assert_eq!(rt; grid.move_cursor_up(1), Ok(()));
        assert_eq!(rt; grid.write_return(), Ok(()));
        assert_eq!(rt; grid.write_str(b"c"), Ok(()));
        drop(grid);
        assert_eq!(rt; cells, [99, 98, 32, 0x4E00, 0, 32]);
    }

    #[test]
    fn cleared_row(rt: HostRuntime) {
        let mut cells = [7; 5];
        let mut grid = Grid::new(2, 2, Plain, &mut cells);
        assert_eq!(rt; grid.write_str(b"abcd"), Ok(()));
        assert_eq!(rt; grid.move_cursor_left(0), Ok(()));
        assert_eq!(rt; grid.write_str(b"e"), Ok(()));
        assert_eq!(rt; grid.move_cursor_up(1), Ok(()));
        assert_eq!(rt; grid.move_cursor_right(5), Ok(()));
        assert_eq!(rt; grid.clear_line(), Ok(()));
        assert_eq!(rt; grid.flush(), Ok(()));
        assert_eq!(rt; grid.write_str(b"f"), Ok(()));
        drop(grid);
        assert_eq!(rt; cells, [102, 32, 101, 32, 7]);
    }

    fn clear_above(term: &mut dyn TermLike, n: usize) -> Result<(), Refusal> {
        term.move_cursor_up(n)?;
        term.clear_line()
    }

    #[test]
    fn through_a_trait_object(rt: HostRuntime) {
        let mut cells = [7; 5];
        let mut grid = Grid::new(2, 2, Plain, &mut cells);
        assert_eq!(rt; grid.write_str(b"abcd"), Ok(()));
        assert_eq!(rt; clear_above(&mut grid, 1), Ok(()));
        drop(grid);
        assert_eq!(rt; cells, [32, 32, 99, 100, 7]);
    }
}
