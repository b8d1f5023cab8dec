// Damaged streams with the refusal of each, and streams that are good, through every kind of source.
#![tactic(auto)]

#[cfg(test)]
mod tests {
    use frame::{Cursor, Frame, header, next_frame};
    use source::{Held, Join, Refusal, Source, Window};
    use std::alloc::{AllocError, Global};
    use std::test::Fail;

    // The header, version, code page, subject, class (with a checksum that is not compared), rendering, and title.
    const GOOD: &[u8; 105] = b"\
        \x78\x9F\x3E\x22\x05\x00\
        \x01\x06\x90\x08\x00\x04\x00\x00\x00\x00\x00\x01\x00\x01\x00\
        \x01\x07\x90\x06\x00\x08\x00\x00\x00\xE4\x04\x00\x00\x00\x00\x00\x00\xE8\x00\
        \x01\x04\x80\x01\x00\x03\x00\x00\x00\x68\x69\x00\xD1\x00\
        \x01\x08\x80\x07\x00\x02\x00\x00\x00\x78\x00\xFF\xFF\
        \x02\x02\x90\x06\x00\x0E\x00\x00\x00\x01\x00\x00\x00\x00\x00\x00\x00\x00\x00\x00\x00\x00\x00\x01\x00\
        \x02\x10\x80\x01\x00\x02\x00\x00\x00\x61\x00\x61\x00";

    // How many bytes are kept, the four bytes that are put at a place before, and the number and place of the refusal.
    type Case = (usize, usize, [u8; 4], u8, usize);

    const CASES: [Case; 31] = [
        (0, 0, [0x78, 0x9F, 0x3E, 0x22], 3, 0), // empty
        (5, 0, [0x78, 0x9F, 0x3E, 0x22], 3, 0), // a header cut short
        (5, 0, [0x00, 0x00, 0x00, 0x00], 3, 0), // a short header with another signature
        (105, 0, [0x78, 0x9F, 0x3E, 0x23], 4, 0), // another signature
        (6, 0, [0x78, 0x9F, 0x3E, 0x22], 3, 6), // the header alone
        (14, 0, [0x78, 0x9F, 0x3E, 0x22], 3, 6), // a head cut short
        (17, 0, [0x78, 0x9F, 0x3E, 0x22], 3, 6), // data cut short
        (20, 0, [0x78, 0x9F, 0x3E, 0x22], 3, 6), // a checksum cut short
        (21, 0, [0x78, 0x9F, 0x3E, 0x22], 3, 21), // no second frame
        (39, 0, [0x78, 0x9F, 0x3E, 0x22], 3, 21), // a second frame cut short
        (48, 0, [0x78, 0x9F, 0x3E, 0x22], 3, 40), // a third head cut short
        (53, 0, [0x78, 0x9F, 0x3E, 0x22], 3, 40), // a third checksum cut short
        (105, 41, [0x05, 0x80, 0x01, 0x00], 6, 40), // an unknown id
        (105, 40, [0x09, 0x05, 0x80, 0x01], 6, 40), // an unknown id at another level
        (105, 40, [0x00, 0x04, 0x80, 0x01], 5, 40), // level 0
        (105, 40, [0x02, 0x04, 0x80, 0x01], 5, 40), // a message's attribute at level 2
        (105, 40, [0xFF, 0x04, 0x80, 0x01], 5, 40), // level 255
        (105, 7, [0x07, 0x90, 0x06, 0x00], 7, 6), // the code page first
        (105, 7, [0x04, 0x80, 0x01, 0x00], 7, 6), // a subject first
        (105, 22, [0x06, 0x90, 0x08, 0x00], 7, 21), // the version twice
        (105, 22, [0x04, 0x80, 0x01, 0x00], 7, 21), // a subject second
        (105, 41, [0x06, 0x90, 0x08, 0x00], 7, 40), // the version among the message's
        (105, 41, [0x07, 0x90, 0x06, 0x00], 7, 40), // the code page among the message's
        (105, 40, [0x02, 0x10, 0x80, 0x01], 7, 40), // an attachment's attribute before its rendering
        (105, 92, [0x01, 0x04, 0x80, 0x01], 7, 92), // a message's attribute behind an attachment
        (105, 45, [0x03, 0x00, 0x00, 0x80], 8, 40), // a length with its top bit
        (105, 45, [0x00, 0x00, 0x01, 0x00], 3, 40), // a length past the end
        (105, 45, [0x38, 0x00, 0x00, 0x00], 3, 40), // a length to the end, with no checksum
        (105, 50, [0x69, 0x00, 0xD2, 0x00], 9, 40), // another checksum
        (105, 49, [0x69, 0x69, 0x00, 0xD1], 9, 40), // other data
        (105, 15, [0x00, 0x00, 0x02, 0x00], 9, 6), // another version, of which the frame layer compares the checksum
    ];

    // How many frames a stream has, or its first refusal.
    fn count<S: Source>(source: &mut S) -> Result<usize, Refusal> {
        header(source)?;
        let mut at = Cursor::FIRST;
        let mut count: usize = 0;
        while let Some(frame) = next_frame(source, at)? {
            at = frame.behind();
            count += 1;
        }
        Ok(count)
    }

    fn damaged(at: usize, patch: [u8; 4]) -> [u8; 105] {
        let mut bytes = *GOOD;
        if at < 102 {
            bytes[at..at + 4].copy_from_slice(&patch);
        }
        bytes
    }

    #[test]
    fn damaged_streams_are_refused(rt: HostRuntime) -> Result<(), Fail> {
        for (keep, at, patch, number, place) in CASES {
            let bytes = damaged(at, patch);
            let mut source = Held::new(&bytes[0..keep.min(105)])?;
            let read = count(&mut source).map_err(|refusal| (
                refusal.reason.number(),
                refusal.place,
            ));
            assert_eq!(rt; read, Err((number, place)));
        }
        Ok(())
    }

    #[test]
    fn good_streams_are_read(rt: HostRuntime) -> Result<(), Fail> {
        let bytes = *GOOD;
        for (keep, frames) in [(105, 6), (92, 5), (67, 4), (54, 3), (40, 2)] {
            let mut source = Held::new(&bytes[0..keep])?;
            assert_eq!(rt; count(&mut source)?, frames);
        }
        Ok(())
    }

    // A stream in two parts, seen through a window of a longer one.
    #[test]
    fn joins_and_windows_are_read(rt: HostRuntime) -> Result<(), Fail> {
        let bytes = *GOOD;
        for cut in 0..105 {
            let first = Held::new(&bytes[0..cut])?;
            let second = Held::new(&bytes[cut..105])?;
            let Ok(join) = Join::new(first, second) else {
                return Err(Fail::new("no join"));
            };
            let Ok(mut window) = Window::new(join, 0, 92) else {
                return Err(Fail::new("no window"));
            };
            assert_eq!(rt; count(&mut window)?, 5);
        }
        Ok(())
    }

    // A stream with the rendering frame of its one attachment repeated.
    fn attachments(heap: Global, number: usize) -> Result<Vec<u8>, AllocError> {
        let bytes = *GOOD;
        let mut stream = bytes[0..67].to_vec(heap)?;
        for _ in 0..number {
            stream.extend_from_slice(&bytes[67..92])?;
        }
        Ok(stream)
    }

    #[test]
    fn attachments_are_limited(rt: HostRuntime) -> Result<(), Fail> {
        let most = attachments(rt.alloc(), 256)?;
        let mut source = Held::new(most.as_slice())?;
        assert_eq!(rt; count(&mut source)?, 260);
        let more = attachments(rt.alloc(), 257)?;
        let mut source = Held::new(more.as_slice())?;
        let read = count(&mut source).map_err(|refusal| refusal.place);
        assert_eq!(rt; read, Err(67 + 256 * 25));
        Ok(())
    }
}
