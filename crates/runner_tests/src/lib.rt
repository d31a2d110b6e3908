// Scripts that stop: where, why, and the trace that stands.
#![tactic(auto)]

#[cfg(test)]
mod tests {
    use runner::run::replay;
    use std::alloc::Global;
    use std::process::Abort;
    use std::test::Fail;

    fn stops_so(
        rt: &impl Abort,
        heap: Global,
        script: &[u8],
        line: u64,
        reason: &str,
        trace: &[u8],
    ) -> Result<(), Fail> {
        let mut out = Vec::new(heap);
        let Err(stop) = replay(heap, script, &mut out) else {
            return Err(Fail::new("replayed to its end"));
        };
        assert_eq!(rt; stop.line, line);
        assert_eq!(rt; stop.halt.message(), reason);
        assert_eq!(rt; out.as_slice(), trace);
        Ok(())
    }

    #[test]
    fn unknown_command(rt: HostRuntime) -> Result<(), Fail> {
        stops_so(
            &rt,
            rt.alloc(),
            b"admit a\n# remark\n\nadmitt b\nadmit c\n",
            4,
            "unknown command",
            b"> admit a\nok\n",
        )
    }

    #[test]
    fn not_supported(rt: HostRuntime) -> Result<(), Fail> {
        stops_so(
            &rt,
            rt.alloc(),
            b"terminal grid 4 2 plain\n",
            1,
            "command not supported",
            b"",
        )
    }

    #[test]
    fn no_limiter(rt: HostRuntime) -> Result<(), Fail> {
        stops_so(
            &rt,
            rt.alloc(),
            b"position 5\nlimiter allow 9\n",
            2,
            "no limiter of this kind was made",
            b"> position 5\nok\n",
        )
    }

    #[test]
    fn counts(rt: HostRuntime) -> Result<(), Fail> {
        let mut out = Vec::new(rt.alloc());
        let summary = replay(rt.alloc(), b"limiter 0 1\n\nadmit \\x07\nadmit", &mut out)?;
        assert_eq!(rt; summary.commands, 3);
        assert_eq!(rt; summary.refused, 2);
        assert_eq!(rt;
            out.as_slice(),
            b"> limiter 0 1\nrefused 3\n> admit \\x07\nrefused 6\n> admit\nok\n".as_slice()
        );
        Ok(())
    }

    #[test]
    fn shown(rt: HostRuntime) -> Result<(), Fail> {
        let mut out = Vec::new(rt.alloc());
        let summary = replay(rt.alloc(), b"admit a\nlimiter 0 1\n", &mut out)?;
        let text = format!(in rt.alloc(); "{summary}")?;
        assert_eq!(rt; text.as_str(), "commands 2\nrefused 1");
        let Err(stop) = replay(rt.alloc(), b"\nadmitt b\n", &mut out) else {
            return Err(Fail::new("replayed to its end"));
        };
        let text = format!(in rt.alloc(); "{stop}")?;
        assert_eq!(rt; text.as_str(), "line 2: unknown command");
        Ok(())
    }
}
