// Data at the edges of each rule: which are admitted, and what normal data they have.
#![tactic(auto)]

#[cfg(test)]
mod tests {
    use attribute::Rule;
    use contents::{admits, write_normal};
    use pen::Pen;
    use source::{Held, Refusal, Source};

    fn admitted(rule: Rule, bytes: &[u8]) -> Result<bool, Refusal> {
        let mut source = Held::new(bytes)?;
        admits(&mut source, rule, 0, bytes.len())
    }

    fn refused(rule: Rule, cases: &[&[u8]]) -> bool {
        cases
            .iter()
            .all(|bytes| admitted(rule, *bytes) == Ok(false))
    }

    fn accepted(rule: Rule, cases: &[&[u8]]) -> bool {
        cases.iter().all(|bytes| admitted(rule, *bytes) == Ok(true))
    }

    // Whether the normal data of `bytes` are `normal`.
    fn becomes(rule: Rule, bytes: &[u8], normal: &[u8]) -> bool {
        let mut out = [0u8; 64];
        let Ok(mut source) = Held::new(bytes) else {
            return false;
        };
        let mut pen = Pen::new(&mut out);
        write_normal(&mut source, rule, 0, bytes.len(), &mut pen);
        match pen.here {
            Some(end) => out.get(0..end) == Some(normal),
            None => false,
        }
    }

    // Whether nothing is written for `bytes`, and the pen is nowhere.
    fn is_lost(rule: Rule, bytes: &[u8]) -> bool {
        let mut out = [0u8; 64];
        let Ok(mut source) = Held::new(bytes) else {
            return false;
        };
        let mut pen = Pen::new(&mut out);
        write_normal(&mut source, rule, 0, bytes.len(), &mut pen);
        pen.here.is_none()
    }

    #[test]
    fn nothing_is_written_for_other_data(rt: HostRuntime) {
        assert!(rt; is_lost(Rule::Date, b"\0"));
        assert!(rt; is_lost(Rule::Status, b"\0"));
        assert!(rt; is_lost(Rule::YesNo, b"\0"));
        assert!(rt; is_lost(Rule::CodePage, b"\0"));
        assert!(rt; is_lost(Rule::Recipients, b"\0\0\0\0"));
        assert!(rt; is_lost(Rule::Properties, b"\0\0\0\0"));
    }

    #[test]
    fn texts(rt: HostRuntime) {
        assert!(rt; accepted(Rule::Text, &[b"\0", b"a\0"]));
        assert!(rt; refused(Rule::Text, &[b"", b"a", b"\0\0", b"a\0b\0"]));
    }

    #[test]
    fn digits(rt: HostRuntime) {
        assert!(rt; accepted(Rule::Digits, &[b"\0", b"0aF9\0"]));
        assert!(rt; refused(Rule::Digits, &[b"", b"0aF\0", b"0g\0", b"00"]));
        assert!(rt; becomes(Rule::Digits, b"0aF9\0", b"0AF9\0"));
    }

    #[test]
    fn dates(rt: HostRuntime) {
        let first = [0x41, 6, 1, 0, 1, 0, 0, 0, 0, 0, 0, 0, 9, 9];
        let last = [0x0F, 0x27, 12, 0, 31, 0, 23, 0, 59, 0, 59, 0, 0, 0];
        let leap = [0xD0, 7, 2, 0, 29, 0, 0, 0, 0, 0, 0, 0, 0, 0];
        assert!(rt; accepted(Rule::Date, &[&first, &last, &leap]));
        let none = [0x6C, 7, 2, 0, 29, 0, 0, 0, 0, 0, 0, 0, 0, 0];
        let long = [0x41, 6, 1, 0, 1, 0, 0, 0, 0, 0, 0, 0, 9, 9, 0];
        assert!(rt; refused(Rule::Date, &[&none, &long, &first[0..13]]));
        let monday = [0x41, 6, 1, 0, 1, 0, 0, 0, 0, 0, 0, 0, 1, 0];
        assert!(rt; becomes(Rule::Date, &first, &monday));
    }

    #[test]
    fn numbers(rt: HostRuntime) {
        assert!(rt; accepted(Rule::Status, &[&[0xFF, 0xFF, 0xFF, 0xFF]]));
        assert!(rt; refused(Rule::Status, &[&[0, 0, 0], &[0, 0, 0, 0, 0]]));
        assert!(rt; becomes(Rule::Status, &[0xFF, 1, 0, 0], &[0xA7, 0, 0, 0]));
        assert!(rt; accepted(Rule::Priority, &[&[1, 0], &[3, 0]]));
        assert!(rt; refused(Rule::Priority, &[&[0, 0], &[4, 0], &[1], &[1, 0, 0]]));
        assert!(rt; refused(Rule::YesNo, &[&[1], &[1, 0, 0]]));
        assert!(rt; becomes(Rule::YesNo, &[0xFF, 0xFF], &[1, 0]));
    }

    #[test]
    fn own_rules(rt: HostRuntime) {
        let right = [2, 0, 9, 9, 9, 9, 9, 9, 9, 9, 1, 0, 0, 0];
        let flags = [2, 0, 9, 9, 9, 9, 9, 9, 9, 9, 2, 0, 0, 0];
        let kind = [3, 0, 9, 9, 9, 9, 9, 9, 9, 9, 1, 0, 0, 0];
        assert!(rt; accepted(Rule::Rendering, &[&right]));
        assert!(rt; refused(Rule::Rendering, &[&flags, &kind, &right[0..13]]));
        assert!(rt; accepted(Rule::Version, &[&[0, 0, 1, 0]]));
        assert!(rt;
            refused(
                Rule::Version,
                &[&[0, 0, 2, 0], &[0, 0, 1], &[0, 0, 1, 0, 0]],
            )
        );
        assert!(rt; refused(Rule::CodePage, &[&[0; 7], &[0; 9]]));
        assert!(rt;
            becomes(
                Rule::CodePage,
                &[0xE4, 4, 0, 0, 1, 2, 3, 4],
                &[0xE4, 4, 0, 0, 0, 0, 0, 0],
            )
        );
    }

    #[test]
    fn classes(rt: HostRuntime) {
        let note = b"IPM.Microsoft Mail.Note\0";
        assert!(rt; becomes(Rule::Class, b"IPM.Note\0", note));
        let receipt = b"IPM.Microsoft Mail.read receipt\0";
        let longest = b"Microsoft Mail v3.0IPM.Microsoft Mail.read receipt\0";
        assert!(rt; becomes(Rule::Class, longest, receipt));
        let other = b"Microsoft Mail v3.0IPM.Note\0";
        assert!(rt; becomes(Rule::Class, other, other));
    }
}
