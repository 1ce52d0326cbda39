// Operational transformation: the form of one edit after another.
#![tactic(auto)]

ghost use Rattle.std.specs.Prelude.{◌≡◌, ℕ, ◌<◌};
ghost use Rattle.ot.specs.Form.{position_of, how, shifted, delete_after, moved_so};
ghost use Rattle.ot.specs.Edit.{edit, fits};

// The form of an edit: what it does, and where. Positions count from 1. The item that an insert brings stands beside the form: no
// transformation looks at it.
// Nothing stands first: an unused place of an array then holds it, and no second value for "empty" is needed.
#[derive(Clone, Copy)]
pub enum Form {
    // what became of a delete whose item another edit had deleted already
    Nothing,
    // position
    Delete(u16),
    // position, priority
    Insert(u16, u8),
}

// How a position moves past another edit: not at all, down one, up one; or the edit is gone.
#[derive(Clone, Copy)]
pub enum Move {
    Still,
    Down,
    Up,
    Gone,
}

// What transforming gives: the form, and how its position moved.
#[derive(Drop)]
pub struct Moved {
    pub form: Form,
    pub how: Move,
}

// The position, 0 for nothing.
pub fn position(f: Form) -> u16
    ensures { result ≡ position_of f }
{
    match f {
        Form::Nothing => 0,
        Form::Delete(p) => p,
        Form::Insert(p, _) => p,
    }
}

// How a delete at p moves past b.
fn delete_moves(p: u16, b: Form) -> Move
    ensures { result ≡ how (Form.Delete p) b }
{
    match b {
        Form::Delete(q) if p == q => Move::Gone,
        Form::Delete(q) if p > q => Move::Down,
        Form::Insert(q, _) if p >= q => Move::Up,
        _ => Move::Still,
    }
}

// How an insert at p with priority r moves past b.
fn insert_moves(p: u16, r: u8, b: Form) -> Move
    ensures { result ≡ how (Form.Insert p r) b }
{
    match b {
        Form::Delete(q) if q < p => Move::Down,
        Form::Insert(q, s) if (q < p) | ((q == p) & (s < r)) => Move::Up,
        _ => Move::Still,
    }
}

// Where a position stands after a move; 0 for an edit that is gone.
fn shift(p: u16, how: Move) -> u16
    requires { p < 65535 }
    ensures { result ≡ shifted how p }
{
    match how {
        Move::Still => p,
        Move::Down => p.saturating_sub(1),
        Move::Up => p + 1,
        Move::Gone => 0,
    }
}

// A delete at p after a move.
fn delete_after(p: u16, how: Move) -> Form
    requires { p < 65535 }
    ensures { result ≡ delete_after p how }
{
    match how {
        Move::Gone => Form::Nothing,
        _ => Form::Delete(shift(p, how)),
    }
}

// The form of a after b, and how it moved. The bound leaves room for the one place that a position can move up.
pub fn transform(a: Form, b: Form) -> Moved
    requires { position_of a < 65535 }
    ensures { result ≡ moved_so a b }
{
    match a {
        Form::Nothing => Moved {
            form: Form::Nothing,
            how: Move::Still,
        },
        Form::Delete(p) => {
            let how = delete_moves(p, b);
            Moved {
                form: delete_after(p, how),
                how,
            }
        }
        Form::Insert(p, r) => {
            let how = insert_moves(p, r, b);
            Moved {
                form: Form::Insert(shift(p, how), r),
                how,
            }
        }
    }
}

// Whether an edit of this form, whatever item it brings, fits a list of len items.
pub fn fit(f: Form, len: u16) -> bool
    ensures { (x : ℕ) → result ≡ fits (edit f x) len }
{
    match f {
        Form::Nothing => true,
        Form::Delete(p) => (1 <= p) & (p <= len),
        Form::Insert(p, _) => (1 <= p) & (p as u32 <= len as u32 + 1),
    }
}
