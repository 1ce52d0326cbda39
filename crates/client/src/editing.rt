// Editing: an insert or a delete made here is applied, counted and kept. Nothing is sent.
ghost use Rattle.std.specs.Prelude.{◌≡◌, ℕ};
ghost use Rattle.refusal.specs.Number.{refused_by};
ghost use Rattle.ot.specs.Edit.{edit, item_of};
ghost use Rattle.model.specs.Questions.{asks};
ghost use Rattle.line.specs.Taking.{done_of};
ghost use Rattle.client.specs.View.{Sound};
ghost use Rattle.client.specs.Answers.{edit_asked, edited, inserted, deleted, taken_back};

use crate::{Client, apply, undo};
use list::Origin;
use ot::Form;
use refusal::Refusal;

impl Client {
    // Inserts x before the item at position p. Its priority is the line's rank.
    pub fn insert(&mut self, p: u16, x: u32) -> Result<(), Refusal>
        ensures { done_of result self.new ≡ inserted self.old p x }
    {
        self.check_sound()?;
        self.make(Form::Insert(p, self.rank()), x)
    }

    // Deletes the item at position p.
    pub fn delete(&mut self, p: u16) -> Result<(), Refusal>
        ensures { done_of result self.new ≡ deleted self.old p }
    {
        self.check_sound()?;
        self.make(Form::Delete(p), 0)
    }

    // Takes its latest edit back: the inverse is made as an ordinary edit.
    pub fn take_back(&mut self) -> Result<(), Refusal>
        ensures { done_of result self.new ≡ taken_back self.old }
    {
        self.check_sound()?;
        let back = self.counts.inverse;
        if back.place == 0 {
            return Err(Refusal::NothingMade);
        }
        self.make(pending::form_at(back.place), back.item)
    }

    // Questions 9 to 12, of which 9 is the first.
    fn check_edit(&self, f: Form) -> Result<(), Refusal>
        ensures { (x : ℕ) → refused_by result ≡ asks (edit_asked self.now.counts (edit f x)) }
    {
        let k = &self.counts;
        if !line::fits_list(f, k.len) {
            return Err(Refusal::Misfit);
        }
        if (Client::INSERTS as u32) < k.own.inserts as u32 + line::inserts_of(f) as u32 {
            return Err(Refusal::Inserts);
        }
        if Client::EDITS <= k.own.made {
            return Err(Refusal::Edits);
        }
        if !k.own.has_room() {
            return Err(Refusal::Full);
        }
        Ok(())
    }

    // Questions 9 to 12 at a client that question 2 found sound: the edit of form f and item x is applied, counted and kept, and its inverse
    // is stored.
    fn make(&mut self, f: Form, x: u32) -> Result<(), Refusal>
        requires { Sound self.old × (x ≡ item_of (edit f x)) }
        ensures { done_of result self.new ≡ edited self.old (edit f x) }
    {
        self.check_edit(f)?;
        let own = self.counts.own;
        let len = self.counts.len;
        let rank = self.rank();
        let inverse = undo::of(&self.words[0..len as usize], f, rank);
        let total = list::total_after(&self.words[0..len as usize], self.counts.total, f, x);
        line::keep(&mut self.words[Client::ITEMS..Client::ORIGINS], own, f, x);
        let origin = Origin {
            line: self.counts.line,
            number: own.made + 1,
        };
        self.counts.len = apply(&mut self.words, len, f, x, origin);
        self.counts.own = own.kept(own.inserts + line::inserts_of(f));
        self.counts.total = total;
        self.counts.inverse = inverse;
        Ok(())
    }
}
