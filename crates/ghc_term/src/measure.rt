// Whether a term is an input term: what it takes of the room that there is.
ghost use Rattle.std.specs.Prelude.{◌≡◌, ◌≢◌, ◌↔◌, ℕ, ◌+◌, ◌≤◌, [], IsTrue, MatchOption};
ghost use Rattle.ghc_term.specs.Tree.{integer, atom, trees};
ghost use Rattle.std.specs.List.{list_all};
ghost use Rattle.ghc_term.specs.Text.{is_cell};
ghost use Rattle.ghc_term.specs.InputTerm.{is_name_byte, IsNameText, IsInputTerm};
ghost use Rattle.ghc_term.specs.inner.Measure.{MeasuredAt, MeasuredAll, Entered};

use crate::limit::TEXT_LIMIT;
use crate::name::Name;
use crate::term::Term;
use crate::view::TermView;
use itoa::Buffer;

// The nodes, and the bytes of text, that are left.
#[derive(Clone, Copy)]
struct Room {
    nodes: usize,
    bytes: usize,
}

// Where a term is written: by itself, or as the rest of a list up to its closing bracket.
#[derive(Clone, Copy)]
enum Place {
    Alone,
    Rest,
}

// What a structure leaves for its arguments, and where the last of them is written.
#[derive(Clone, Copy)]
struct Inside {
    place: Place,
    depth: usize,
    room: Room,
}

impl Place {
    ghost use Rattle.ghc_term.specs.inner.Measure.{marks_at, opened_at};

    // The bar and the closing bracket around a rest that is no list.
    fn marks(self) -> usize
        ensures { result ≡ marks_at self }
    {
        match self {
            Place::Alone => 0,
            Place::Rest => 2,
        }
    }

    // The brackets that a list opens there.
    fn opened(self) -> usize
        ensures { result ≡ opened_at self }
    {
        match self {
            Place::Alone => 1,
            Place::Rest => 0,
        }
    }
}

impl Room {
    // What is left after so many nodes and bytes.
    fn spend(self, nodes: usize, bytes: usize) -> Option<Room>
        ensures { MatchOption result (¬ ((nodes ≤ self.nodes) × (bytes ≤ self.bytes)))
            (λ left. (nodes + left.nodes ≡ self.nodes) × (bytes + left.bytes ≡ self.bytes)) }
    {
        if nodes > self.nodes || bytes > self.bytes {
            return None;
        }
        Some(Room {
            nodes: self.nodes - nodes,
            bytes: self.bytes - bytes,
        })
    }
}

// Whether each byte is a letter, a digit or `_`.
fn are_name_bytes(bytes: &[u8]) -> bool
    ensures { result ≡ list_all is_name_byte bytes.now }
{
    bytes.iter().all(|b| b.is_ascii_lowercase()
        || b.is_ascii_uppercase()
        || b.is_ascii_digit()
        || *b == b'_')
}

// Whether the text is a name of the grammar.
fn is_name(text: &str) -> bool
    ensures { IsTrue result ↔ IsNameText text.now }
{
    let [first, rest @ ..] = text.as_bytes() else {
        return false;
    };
    if !first.is_ascii_lowercase() || text == "mod" {
        return false;
    }
    are_name_bytes(rest)
}

// An integer takes its digits.
fn measure_integer(k: i64, place: Place, room: Room) -> Option<Room>
    ensures { (depth : ℕ) → MeasuredAt place (integer k) depth room result }
{
    let mut buffer = Buffer::new();
    room.spend(1, buffer.format(k).len() + place.marks())
}

// An atom takes its name, and `[]` the closing bracket alone where it ends a list.
fn measure_atom(name: &Name, place: Place, depth: usize, room: Room) -> Option<Room>
    ensures { MeasuredAt place (atom name.now) depth room result }
{
    let text = name.as_str();
    if text == "[]" {
        let opened = place.opened();
        depth.checked_sub(opened)?;
        return room.spend(1, 1 + opened);
    }
    let left = room.spend(1, text.len() + place.marks())?;
    if is_name(text) { Some(left) } else { None }
}

// Whether the name over the arguments is a list cell.
fn is_list_cell(name: &Name, arguments: &[Term]) -> bool
    ensures { result ≡ is_cell name.now (trees arguments.now) }
{
    name.as_str() == "." && arguments.len() == 2
}

// What a structure leaves for its arguments. Its name is read only where there is room for it.
fn enter(name: &Name, arguments: &[Term], place: Place, depth: usize, room: Room) -> Option<Inside>
    requires { arguments.now ≢ [] }
    ensures { Entered place name.now (trees arguments.now) depth room result }
{
    if is_list_cell(name, arguments) {
        return Some(Inside {
            place: Place::Rest,
            depth: depth.checked_sub(place.opened())?,
            room: room.spend(1, 0)?,
        });
    }
    if arguments.len() > 255 {
        return None;
    }
    let text = name.as_str();
    let room = room.spend(1, text.len() + 2 + place.marks())?;
    if !is_name(text) {
        return None;
    }
    Some(Inside {
        place: Place::Alone,
        depth: depth.checked_sub(1)?,
        room,
    })
}

// What is left after the terms, a mark before each.
#[cycle(measure)]
fn measure_all(terms: &[Term], depth: usize, room: Room) -> Option<Room>
    ensures { MeasuredAll (trees terms.now) depth room result }
{
    let mut left = room;
    for term in terms {
        left = measure(term, depth, left.spend(0, 1)?)?;
    }
    Some(left)
}

// What is left after the term. It goes along last arguments and list tails in a loop, and into the others by calls,
// which open a bracket each.
#[cycle(measure)]
fn measure(term: &Term, depth: usize, room: Room) -> Option<Room>
    ensures { MeasuredAt Place.Alone term.now depth room result }
{
    let mut part = term;
    let mut place = Place::Alone;
    let mut within = depth;
    let mut left = room;
    loop {
        match part.view() {
            TermView::Var(_) => return None,
            TermView::Int(k) => return measure_integer(k, place, left),
            TermView::Atom(name) => return measure_atom(name, place, within, left),
            TermView::Struct(name, arguments) => {
                let (last, front) = arguments.split_last().unwrap();
                let inside = enter(name, arguments, place, within, left)?;
                left = measure_all(front, inside.depth, inside.room)?;
                part = last;
                place = inside.place;
                within = inside.depth;
            }
        }
    }
}

/// Whether the term is an input term. It looks at 10,000 nodes and `TEXT_LIMIT` bytes at most.
pub fn is_input_term(term: &Term) -> bool
    ensures { IsTrue result ↔ IsInputTerm term.now }
{
    let room = Room {
        nodes: 10_000,
        bytes: TEXT_LIMIT,
    };
    measure(term, 64, room).is_some()
}
