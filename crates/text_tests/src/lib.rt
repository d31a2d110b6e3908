// Pieces and lines, executed.
#![tactic(auto)]

#[cfg(test)]
mod tests {
    use escape::piece::Piece;
    use escape::pieces::AnsiCodeIterator;
    use refusal::Refusal;
    use std::alloc::{AllocError, Global};
    use std::process::Abort;
    use std::test::Fail;
    use text::line::{LineType, visual_line_count};
    use text::metrics::VisualLines;
    use text::width::{House, Plain};

    // Plain runs in square brackets, colour sequences in angle brackets.
    fn marked(heap: Global, line: &[u8]) -> Result<Vec<u8>, AllocError> {
        let mut out = Vec::new(heap);
        for piece in AnsiCodeIterator::new(line) {
            let (open, close) = match piece {
                Piece::Plain(_) => (b"[", b"]"),
                Piece::Colour(_) => (b"<", b">"),
            };
            out.extend_from_slice(open)?;
            out.extend_from_slice(piece.as_bytes())?;
            out.extend_from_slice(close)?;
        }
        Ok(out)
    }

    fn cut_so(rt: &impl Abort, heap: Global, line: &[u8], expected: &[u8]) -> Result<(), Fail> {
        let out = marked(heap, line)?;
        assert_eq!(rt; out.as_slice(), expected);
        Ok(())
    }

    #[test]
    fn pieces(rt: HostRuntime) -> Result<(), Fail> {
        let heap = rt.alloc();
        cut_so(&rt, heap, b"", b"")?;
        cut_so(&rt, heap, b"ab", b"[ab]")?;
        cut_so(&rt, heap, b"\x1b[m", b"<\x1b[m>")?;
        cut_so(
            &rt,
            heap,
            b"a\x1b[31mbc\x1b[0m",
            b"[a]<\x1b[31m>[bc]<\x1b[0m>",
        )?;
        cut_so(&rt, heap, b"\x1b[1m\x1b[2mx", b"<\x1b[1m><\x1b[2m>[x]")?;
        cut_so(&rt, heap, b"\x1b\x1b[3 mx", b"[\x1b]<\x1b[3 m>[x]")?;
        cut_so(&rt, heap, b"\x1b[2Kx\x1b[", b"[\x1b[2Kx\x1b[]")?;
        cut_so(&rt, heap, b"\x1b[1 1m", b"[\x1b[1 1m]")
    }

    #[test]
    fn lines(rt: HostRuntime) {
        let three = [
            LineType::Text(b"ab"),
            LineType::Empty,
            LineType::Bar(b"abc"),
        ];
        assert_eq!(rt;
            visual_line_count(&three, 2, &Plain),
            Ok(VisualLines::from(4))
        );
        assert_eq!(rt; visual_line_count(&[], 1, &House), Ok(VisualLines::from(0)));
        assert_eq!(rt;
            visual_line_count(&[LineType::Empty], 1, &House),
            Err(Refusal::Size)
        );
        let second = [
            LineType::Text(b"a"),
            LineType::Bar(b"\x1b"),
            LineType::Bar(&[97; 129]),
        ];
        assert_eq!(rt;
            visual_line_count(&second, 9, &House),
            Err(Refusal::NotAdmissible(0))
        );
    }
}
