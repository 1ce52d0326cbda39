// The inverse of a client's latest edit (02: N7), which taking back makes. It is stored as a slot is: a place, and the item.
ghost use Rattle.std.specs.Prelude.{◌≡◌, true, ◌&&◌, ℕ, eqb, length};
ghost use Rattle.ot.specs.Edit.{edit, fits, transformed};
ghost use Rattle.model.specs.Cross.{priority};
ghost use Rattle.pending.specs.Slots.{form_at};
ghost use Rattle.model.specs.Inverse.{inverse_stands, sound_inverse};
ghost use Rattle.client.specs.View.{inverse_in, inverse_stored, inverse_tidy};
ghost use Rattle.client.specs.Undo.{inverse_made};

use crate::{Client, Inverse};
use ot::Form;

// The position, if there is one, is 1 to 513.
pub fn stands(f: Form) -> bool
    ensures { result ≡ inverse_stands (edit f 0) }
{
    match f {
        Form::Nothing => true,
        Form::Delete(p) | Form::Insert(p, _) => (1 <= p) & (p as usize <= Client::ITEMS + 1),
    }
}

// Does an insert have the client's rank?
fn is_ranked(f: Form, rank: u8) -> bool
    ensures { result ≡ priority (eqb rank) (edit f 0) }
{
    match f {
        Form::Nothing | Form::Delete(_) => true,
        Form::Insert(_, r) => rank == r,
    }
}

// Nothing has no place, and only an insert brings an item.
fn is_tidy(b: Inverse, f: Form) -> bool
    requires { f ≡ form_at b.place }
    ensures { result ≡ inverse_tidy b }
{
    let place = pending::place_of(f);
    let right = b.place == place;
    match f {
        Form::Nothing | Form::Delete(_) => right & (b.item == 0),
        Form::Insert(_, _) => right,
    }
}

// Question 2 of the inverse that a client of that rank stores which has made so many edits.
pub fn is_sound(b: Inverse, rank: u8, made: u16) -> bool
    ensures { result ≡ (sound_inverse rank made (inverse_in b) && inverse_tidy b) }
{
    let f = pending::form_at(b.place);
    let none = b.place == 0;
    stands(f) & is_ranked(f, rank) & (!(made == 0) | none) & is_tidy(b, f)
}

// The inverse of the edit of form f, of the list, by a client of that rank.
pub fn of(list: &[u32], f: Form, rank: u8) -> Inverse
    requires { fits (edit f 0) (length list.now) ≡ true }
    ensures { result ≡ inverse_made rank list.now f }
{
    match f {
        Form::Nothing => Inverse { place: 0, item: 0 },
        Form::Delete(p) => Inverse {
            place: pending::place_of(Form::Insert(p, rank)),
            item: list[(p - 1) as usize],
        },
        Form::Insert(p, _) => Inverse {
            place: pending::place_of(Form::Delete(p)),
            item: 0,
        },
    }
}

// The inverse once an edit is applied in the form f.
pub fn past(b: Inverse, f: Form) -> Inverse
    requires { (inverse_stands (inverse_in b) ≡ true) × (inverse_tidy b ≡ true) }
    ensures { (x : ℕ) → result ≡ inverse_stored (transformed (inverse_in b) (edit f x)) }
{
    let own = pending::form_at(b.place);
    let form = ot::transform(own, f).form;
    Inverse {
        place: pending::place_of(form),
        item: b.item,
    }
}
