// What the written form of properties promises.
ghost use Rattle.property.specs.Validity.{IsReadBack};

// Lists and tables that were written are read again as they were, wherever they stand.
pub fn written_is_read_back() -> u8
    ensures { IsReadBack }
{
    0
}
