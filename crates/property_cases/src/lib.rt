// Lists and tables of properties, judged: which are read, and which are refused, why and where.
#![tactic(auto)]

use property::{property_list, recipient_table};
use source::{Held, Refusal, Source};

// What the bytes from `base` to `end` are as a list.
pub fn as_list(bytes: &[u8], base: usize, end: usize) -> Result<(), Refusal> {
    let mut held = Held::new(bytes)?;
    property_list(&mut held, base, end)
}

// What the bytes from `base` to `end` are as a table.
pub fn as_table(bytes: &[u8], base: usize, end: usize) -> Result<(), Refusal> {
    let mut held = Held::new(bytes)?;
    recipient_table(&mut held, base, end)
}

#[cfg(test)]
mod tests {
    use super::*;
    use index::{PropertyKey, PropertyRow};
    use property::{one_key, one_property, rows};
    use source::Reason;
    use std::test::Fail;

    fn refused(reason: Reason, place: usize) -> Result<(), Refusal> {
        Err(Refusal { reason, place })
    }

    // Behind three other bytes: the number 1 under 0x0E07, and the text "hi" under the name "A" of a GUID.
    const TWO: [u8; 60] = [
        9, 9, 9, 2, 0, 0, 0, 3, 0, 7, 14, 1, 0, 0, 0, 30, 0, 0, 128, 1, 2, 3, 4, 5, 6, 7, 8, 9, 10,
        11, 12, 13, 14, 15, 16, 1, 0, 0, 0, 4, 0, 0, 0, 65, 0, 0, 0, 1, 0, 0, 0, 3, 0, 0, 0, 104,
        105, 0, 0, 9,
    ];

    #[test]
    fn a_number_and_a_named_text(rt: HostRuntime) {
        assert_eq!(rt; as_list(&TWO, 3, 59), Ok(()));
        assert_eq!(rt; as_list(&TWO, 3, 60), refused(Reason::LeftOver, 59));
        assert_eq!(rt; as_list(&TWO, 3, 99), refused(Reason::LeftOver, 59));
        assert_eq!(rt; as_list(&TWO, 3, 58), refused(Reason::FieldEnd, 15));
        assert_eq!(rt; as_list(&TWO, 3, 6), refused(Reason::FieldEnd, 3));
        assert_eq!(rt; as_list(&TWO, 99, 60), refused(Reason::FieldEnd, 99));
    }

    #[test]
    fn fixed_values(rt: HostRuntime) {
        let truth = [1, 0, 0, 0, 0x0B, 0, 2, 0, 0xFF, 0xFF, 0xAA, 0x55];
        assert_eq!(rt; as_list(&truth, 0, 12), Ok(()));
        assert_eq!(rt; as_list(&truth, 0, 11), refused(Reason::FieldEnd, 4));
        let truths = [1, 0, 0, 0, 0x0B, 0x10, 2, 0, 0, 0, 0, 0];
        assert_eq!(rt; as_list(&truths, 0, 12), refused(Reason::FieldRule, 4));
        let none = [1, 0, 0, 0, 2, 0x10, 2, 0, 0, 0, 0, 0];
        assert_eq!(rt; as_list(&none, 0, 12), Ok(()));
        let each_padded = [
            1, 0, 0, 0, 2, 0x10, 2, 0, 2, 0, 0, 0, 1, 0, 9, 9, 2, 0, 9, 9,
        ];
        assert_eq!(rt; as_list(&each_padded, 0, 20), Ok(()));
        assert_eq!(rt; as_list(&each_padded, 0, 18), refused(Reason::FieldEnd, 4));
    }

    #[test]
    fn sized_values(rt: HostRuntime) {
        let two = [1, 0, 0, 0, 2, 1, 2, 0, 2, 0, 0, 0];
        assert_eq!(rt; as_list(&two, 0, 12), refused(Reason::FieldRule, 4));
        let none = [1, 0, 0, 0, 2, 0x11, 2, 0, 0, 0, 0, 0];
        assert_eq!(rt; as_list(&none, 0, 12), refused(Reason::FieldRule, 4));
        let unclosed = [
            1, 0, 0, 0, 30, 0, 2, 0, 1, 0, 0, 0, 2, 0, 0, 0, 104, 105, 0, 0,
        ];
        assert_eq!(rt; as_list(&unclosed, 0, 20), refused(Reason::FieldRule, 4));
        assert_eq!(rt; as_list(&unclosed, 0, 19), refused(Reason::FieldEnd, 4));
    }

    #[test]
    fn a_name_too_long(rt: HostRuntime) {
        let mut bytes = [0u8; 640];
        bytes[0] = 1;
        bytes[4] = 3;
        bytes[7] = 0x80;
        bytes[24] = 1;
        bytes[28] = 0x58;
        bytes[29] = 2;
        assert_eq!(rt; as_list(&bytes, 0, 632), refused(Reason::FieldRule, 4));
        assert_eq!(rt; as_list(&bytes, 0, 631), refused(Reason::FieldEnd, 4));
    }

    #[test]
    fn as_many_as_a_list_can_have(rt: HostRuntime) {
        let mut bytes = [0u8; 8204];
        // The type of two bytes, to each property of eight.
        for property in bytes[4..8204].chunks_exact_mut(8) {
            property[0] = 2;
        }
        bytes[1] = 4;
        assert_eq!(rt; as_list(&bytes, 0, 8196), Ok(()));
        bytes[0] = 1;
        assert_eq!(rt; as_list(&bytes, 0, 8204), refused(Reason::Limit, 0));
    }

    #[test]
    fn tables(rt: HostRuntime) {
        let empty_rows = [2, 0, 0, 0, 0, 0, 0, 0, 0, 0, 0, 0];
        assert_eq!(rt; as_table(&empty_rows, 0, 12), Ok(()));
        assert_eq!(rt; as_table(&empty_rows, 0, 11), refused(Reason::FieldEnd, 8));
        assert_eq!(rt; as_table(&empty_rows, 4, 12), refused(Reason::LeftOver, 8));
        let many_rows = [1, 4, 0, 0];
        assert_eq!(rt; as_table(&many_rows, 0, 4), refused(Reason::Limit, 0));
        let long_row = [2, 0, 0, 0, 0, 0, 0, 0, 1, 4, 0, 0];
        assert_eq!(rt; as_table(&long_row, 0, 12), refused(Reason::Limit, 8));
    }

    #[test]
    fn one_of_each(rt: HostRuntime) -> Result<(), Fail> {
        let mut held = Held::new(&TWO)?;
        let row = one_property(&mut held, 15, 59)?;
        assert_eq!(rt; row.values, 47);
        assert!(rt; one_property(&mut held, 7, 59).is_err());
        assert!(rt; one_key(&mut held, 17, 47).is_ok());
        assert!(rt; one_key(&mut held, 17, 48).is_err());
        Ok(())
    }

    #[test]
    fn the_earlier_of_equal_names_stands(rt: HostRuntime) -> Result<(), Fail> {
        let mut bytes = [0u8; 72];
        bytes[0] = 2;
        bytes[4] = 3;
        bytes[7] = 0x80;
        bytes[32] = 5;
        bytes[36] = 3;
        bytes[38] = 7;
        bytes[39] = 0x80;
        let none = PropertyRow {
            key: PropertyKey::Tag(0),
            number: 0,
            values: 0,
            next: 0,
        };
        let mut lent = [none; 1024];
        let mut held = Held::new(&bytes)?;
        let listed = rows(&mut held, 0, 72, &mut lent)?;
        assert_eq!(rt; listed.count, 1);
        assert_eq!(rt; listed.next, 68);
        assert_eq!(rt; lent[0].values, 32);
        Ok(())
    }
}
