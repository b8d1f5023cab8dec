// The name of a property, held in place.
ghost use Rattle.std.specs.Prelude.{◌≡◌, ◌<◌, ◌≤◌, length, take, MatchOption};
ghost use Rattle.index.specs.Limits.{name_limit};

// The most bytes that a name can have.
pub const NAME_LIMIT: usize = 512;

// A buffer and a length, since rows are copied within lent memory and nothing is allocated.
#[derive(Clone, Copy)]
pub struct Name {
    bytes: [u8; NAME_LIMIT],
    used: usize,
    ghost ok: { used ≤ name_limit },
}

impl Name {
    #[tactic(auto, using(std::proofs::lemmas::List::take_at))]
    pub fn new(text: &[u8]) -> Option<Name>
        ensures { MatchOption result
            (name_limit < length text.now)
            (λ s. take s.used s.bytes ≡ text.now) }
    {
        let n = text.len();
        if n > NAME_LIMIT {
            return None;
        }
        let mut bytes = [0; NAME_LIMIT];
        bytes[0..n].copy_from_slice(text);
        Some(Name { bytes, used: n })
    }

    pub fn text(&self) -> &[u8]
        ensures value { result.now ≡ take self.now.used self.now.bytes }
        ensures within { length result.now ≤ name_limit }
    {
        &self.bytes[0..self.used]
    }
}
