// Lines that are read and lines that are printed, on examples.
#![tactic(auto)]

#[cfg(test)]
mod tests {
    use lines::{Command, done_line, refused_line, unknown_line};
    use refusal::{Part, Refusal, Shortage};
    use std::alloc::Global;
    use std::process::Abort;
    use std::test::Fail;

    // One command of each letter, with the limits of its numbers.
    #[test]
    fn letters(rt: HostRuntime) {
        let rows = [
            ("O 0", Command::Open { vertex: 0 }),
            (
                "S 0 45",
                Command::Split {
                    place: 0,
                    reach: 45,
                },
            ),
            (
                "S 4294967295 0",
                Command::Split {
                    place: 4294967295,
                    reach: 0,
                },
            ),
            ("A 65535", Command::SplitAll { reach: 65535 }),
            ("E", Command::Extend),
            ("Q 5 7", Command::Attach { mark: 5, base: 7 }),
            (
                "Q 65535 0",
                Command::Attach {
                    mark: 65535,
                    base: 0,
                },
            ),
            (
                "Q 0 65535",
                Command::Attach {
                    mark: 0,
                    base: 65535,
                },
            ),
        ];
        for (line, command) in rows {
            assert_eq!(rt; Command::read(line.as_bytes()), Some(command), "{}", line);
        }
    }

    #[test]
    fn numbers(rt: HostRuntime) {
        let rows = [
            ("O 7", 7),
            ("O 0000000001", 1),
            ("O 0000000000", 0),
            ("O 1234567890", 1234567890),
            ("O 4294967295", 4294967295),
        ];
        for (line, vertex) in rows {
            assert_eq!(rt;
                Command::read(line.as_bytes()),
                Some(Command::Open { vertex }),
                "{}",
                line
            );
        }
    }

    // Too few and too many numbers, spaces, other bytes, and numbers that are too long or too large.
    #[test]
    fn no_command(rt: HostRuntime) {
        let rows = [
            "",
            " ",
            "O",
            "O ",
            "O  1",
            "O 1 ",
            "O 1 2",
            " O 1",
            "O1",
            "O 1\r",
            "O 1\t",
            "O\t1",
            "O 1\n",
            "O +1",
            "O -1",
            "O 1a",
            "O a",
            "O 0x1",
            "O 00000000001",
            "O 12345678901",
            "O 4294967296",
            "O 9999999999",
            "o 1",
            "S",
            "S 1",
            "S 1 ",
            "S 1 2 3",
            "S 1  2",
            "S  1 2",
            "S 1 2 ",
            "S 1,2",
            "s 1 2",
            "A",
            "A 1 2",
            "a 1",
            "E ",
            "E 1",
            "e",
            "EE",
            "Q",
            "Q 1",
            "Q 1 2 3",
            "Q 65536 0",
            "Q 0 65536",
            "Q 1 65536 ",
            "q 1 2",
            "B 1",
            "?",
            "O é",
            "é",
            "O 1é",
            "O ١",
        ];
        for line in rows {
            assert_eq!(rt; Command::read(line.as_bytes()), None, "{}", line);
        }
        assert_eq!(rt; Command::read(&[79, 32, 255]), None);
        assert_eq!(rt; Command::read(&[207, 32, 49]), None);
        assert_eq!(rt; Command::read(&[79, 160, 49]), None);
        assert_eq!(rt; Command::read(&[79, 32, 49, 0]), None);
    }

    fn check_refused(
        rt: &impl Abort,
        heap: Global,
        refusal: Refusal,
        line: &str,
    ) -> Result<(), Fail> {
        let printed = refused_line(heap, b"L", refusal)?;
        assert_eq!(rt; printed.as_slice(), line.as_bytes(), "{}", line);
        Ok(())
    }

    #[test]
    fn refused(rt: HostRuntime) -> Result<(), Fail> {
        let part = Part::MarkArray;
        let rows = [
            (Refusal::BadFile, "L refused 1\n"),
            (Refusal::FileTooLarge(Shortage::Bytes), "L refused 2 2\n"),
            (Refusal::BadLink { record: 10 }, "L refused 3 10\n"),
            (Refusal::LookupOpen { lookup: 0 }, "L refused 4 0\n"),
            (Refusal::NoLookup, "L refused 5\n"),
            (
                Refusal::BrokenLookup { place: 4294967295 },
                "L refused 6 4294967295\n",
            ),
            (
                Refusal::BrokenPart {
                    subtable: 3,
                    part,
                    place: 12,
                },
                "L refused 7 3 4 12\n",
            ),
            (
                Refusal::SharedPart {
                    subtable: 1,
                    part: Part::BaseArray,
                },
                "L refused 8 1 5\n",
            ),
            (Refusal::NothingOpen, "L refused 9\n"),
            (Refusal::NoSubtable { count: 2 }, "L refused 10 2\n"),
            (Refusal::BadReach { reach: 65536 }, "L refused 11 65536\n"),
            (
                Refusal::ClassTooLarge {
                    subtable: 0,
                    class: 65535,
                },
                "L refused 12 0 65535\n",
            ),
            (Refusal::NoRoom(Shortage::Lists), "L refused 13 3\n"),
            (Refusal::AlreadyExtended, "L refused 14\n"),
        ];
        for (refusal, line) in rows {
            check_refused(&rt, rt.alloc(), refusal, line)?;
        }
        Ok(())
    }

    // The echo is printed as it came, whatever its bytes are.
    #[test]
    fn echoes(rt: HostRuntime) -> Result<(), Fail> {
        let class = Refusal::ClassTooLarge {
            subtable: 0,
            class: 0,
        };
        let refused = refused_line(rt.alloc(), b"S 0 45", class)?;
        assert_eq!(rt; refused.as_slice(), b"S 0 45 refused 12 0 0\n".as_slice());
        let bytes = refused_line(rt.alloc(), &[255, 10], Refusal::BadFile)?;
        assert_eq!(rt; bytes.as_slice(), b"\xff\n refused 1\n".as_slice());
        let done = done_line(rt.alloc(), b"O 0", 1)?;
        assert_eq!(rt; done.as_slice(), b"O 0 done 1\n".as_slice());
        let unknown = unknown_line(rt.alloc())?;
        assert_eq!(rt; unknown.as_slice(), b"?\n".as_slice());
        Ok(())
    }
}
