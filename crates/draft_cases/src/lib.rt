// Drafts that are begun and loaded, and what is left of area and work memory.
#![tactic(auto)]

#[cfg(test)]
mod tests {
    use draft::{BLANK_ROW, Draft, Work};
    use index::PropertyRow;
    use source::{Held, Refusal};

    // The form of a message of nothing but the primary number 1252.
    const BLANK: &[u8; 40] = b"\
        \x78\x9F\x3E\x22\x01\x00\
        \x01\x06\x90\x08\x00\x04\x00\x00\x00\x00\x00\x01\x00\x01\x00\
        \x01\x07\x90\x06\x00\x08\x00\x00\x00\xE4\x04\x00\x00\x00\x00\x00\x00\xE8\x00";

    fn number(refusal: Refusal) -> u8 {
        refusal.reason.number()
    }

    // Begins with 1252 in the area, with work memory of as many bytes as are given; a refusal by its number.
    fn begin(area: &mut [u8], bytes: &mut [u8], rows: &mut [PropertyRow]) -> Result<(), u8> {
        let work = Work { bytes, rows };
        Draft::new(area, 0).begin(work, 1252).map_err(number)
    }

    fn load(area: &mut [u8], bytes: &mut [u8], stream: &[u8]) -> Result<(), u8> {
        let mut rows = [BLANK_ROW; 1024];
        let mut source = Held::new(stream).map_err(number)?;
        let work = Work {
            bytes,
            rows: &mut rows,
        };
        Draft::new(area, 0).load(work, &mut source).map_err(number)
    }

    // One byte more than the form takes, which is cleared with the work memory.
    #[test]
    fn begins(rt: HostRuntime) {
        let mut area = [9u8; 41];
        let mut bytes = [7u8; 41];
        let mut rows = [BLANK_ROW; 1024];
        assert_eq!(rt; begin(&mut area, &mut bytes, &mut rows), Ok(()));
        assert_eq!(rt; &area[0..40], BLANK.as_slice());
        assert_eq!(rt; area[40], 0);
        assert_eq!(rt; bytes, [0; 41]);
    }

    // The form does not fit, there are too few work bytes, or too few rows.
    #[test]
    fn refuses_to_begin(rt: HostRuntime) {
        let mut area = [9u8; 39];
        let mut bytes = [7u8; 39];
        let mut few = [7u8; 38];
        let mut rows = [BLANK_ROW; 1024];
        let mut short = [BLANK_ROW; 1023];
        assert_eq!(rt; begin(&mut area, &mut bytes, &mut rows), Err(17));
        assert_eq!(rt; begin(&mut area, &mut few, &mut rows), Err(1));
        assert_eq!(rt; begin(&mut area, &mut bytes, &mut short), Err(1));
        assert_eq!(rt; area, [9; 39]);
        assert_eq!(rt; bytes, [0; 39]);
    }

    // A stream that is loaded, one for which the area is too small, and one that is cut short.
    #[test]
    fn loads(rt: HostRuntime) {
        let stream = *BLANK;
        let mut area = [9u8; 41];
        let mut small = [9u8; 39];
        let mut bytes = [7u8; 41];
        assert_eq!(rt; load(&mut area, &mut bytes, &stream), Ok(()));
        assert_eq!(rt; &area[0..40], &stream[..]);
        assert_eq!(rt; load(&mut small, &mut bytes, &stream), Err(17));
        assert_eq!(rt; load(&mut area, &mut bytes, &stream[0..39]), Err(3));
        assert_eq!(rt; &area[0..40], &stream[..]);
        assert_eq!(rt; small, [9; 39]);
    }
}
