// The different letters of a correspondence, by their written forms.
#![tactic(auto)]

ghost use Rattle.std.specs.Prelude.{◌≡◌, false, length, is_ok, IfOk, if◌then◌else◌};
ghost use Rattle.std.specs.Str.{bytes_eq};
ghost use Rattle.index.specs.Rows.{added, before};
ghost use Rattle.correspondence.specs.Forms.{forms_in};
ghost use Rattle.correspondence.specs.Groups.{GroupsDecide};

use forms::Form;
use indexmap::IndexSet;
use std::alloc::{AllocError, Global};

mod forms;

// Each form once, in the order in which they were added.
#[derive(Drop)]
pub struct Correspondence {
    forms: IndexSet<Form<'static>>,
}

impl Correspondence {
    pub fn new(heap: Global) -> Correspondence
        ensures { length (forms_in result) ≡ 0 }
    {
        Correspondence {
            forms: IndexSet::new(heap),
        }
    }

    // How many different forms were added, and so how many different messages.
    pub fn count(&self) -> usize
        ensures number { result ≡ length (forms_in self.now) }
        ensures messages { GroupsDecide }
    {
        self.forms.len()
    }

    // Adds a form, and says how many different forms were added before the first that equals it.
    pub fn add(&mut self, heap: Global, form: &[u8]) -> Result<usize, AllocError>
        ensures forms { forms_in self.new ≡ (if is_ok result then added bytes_eq false (forms_in self.old) form.now else forms_in self.old) }
        ensures group { IfOk result (λ k. k ≡ before bytes_eq (forms_in self.new) form.now) }
    {
        if let Some(i) = self.forms.get_index_of(&Form::lent(form)) {
            return Ok(i);
        }
        self.add_owned(form.to_vec(heap)?)
    }

    // The same of a form that is given away, so that it need not be copied.
    pub fn add_owned(&mut self, form: Vec<u8>) -> Result<usize, AllocError>
        ensures forms { forms_in self.new ≡ (if is_ok result then added bytes_eq false (forms_in self.old) form.items else forms_in self.old) }
        ensures group { IfOk result (λ k. k ≡ before bytes_eq (forms_in self.new) form.items) }
    {
        let (place, _) = self.forms.insert_full(Form::owned(form))?;
        Ok(place)
    }
}

#[cfg(test)]
mod tests {
    use super::*;
    use std::test::Fail;

    // With memory at hand each way of adding succeeds, and a form that is known keeps its group.
    #[test]
    fn forms_are_added(rt: HostRuntime) -> Result<(), Fail> {
        let mut letters = Correspondence::new(rt.alloc());
        assert_eq!(rt; letters.add(rt.alloc(), b"one")?, 0);
        assert_eq!(rt; letters.add_owned(b"two".to_vec(rt.alloc())?)?, 1);
        assert_eq!(rt; letters.add(rt.alloc(), b"one")?, 0);
        assert_eq!(rt; letters.add(rt.alloc(), b"two")?, 1);
        assert_eq!(rt; letters.add_owned(b"".to_vec(rt.alloc())?)?, 2);
        assert_eq!(rt; letters.count(), 3);
        Ok(())
    }
}
