// Numbers in ascending order: one more of them, or one less.
ghost use Rattle.std.specs.Prelude.{◌≡◌, ◌≢◌, ◌↔◌, ◌⊎◌, ◌+◌, ◌<◌, ◌≤◌, ℕ, IsTrue, vec_len, vec_capacity};
ghost use Rattle.ghc_term.specs.Lists.{In};
ghost use Rattle.ghc_records.specs.inner.NumberSet.{IsRising};

// The two numbers.
pub(crate) fn rising_two(one: u32, other: u32) -> [u32; 2]
    requires { one ≢ other }
    ensures rising { IsRising result }
    ensures numbers { (n : ℕ) → In n result ↔ ((n ≡ one) ⊎ (n ≡ other)) }
{
    if one < other {
        [one, other]
    } else {
        [other, one]
    }
}

// The two numbers and a third one.
pub(crate) fn rising_three(two: &[u32; 2], third: u32) -> [u32; 3]
    requires rising { IsRising two.now }
    requires new { ¬ In third two.now }
    ensures rising { IsRising result }
    ensures numbers { (n : ℕ) → In n result ↔ (In n two.now ⊎ (n ≡ third)) }
{
    let [low, high] = *two;
    if third < low {
        [third, low, high]
    } else if third < high {
        [low, third, high]
    } else {
        [low, high, third]
    }
}

// Whether the number is greater than all of the list: one step.
pub(crate) fn is_above(list: &[u32], number: u32) -> bool
    requires { IsRising list.now }
    ensures { IsTrue result ↔ ((n : ℕ) → In n list.now → n < number) }
{
    match list.last() {
        Some(last) => *last < number,
        None => true,
    }
}

// Adds a number that is there already, or for which there is room. One greater than all others takes one step. Another takes a
// search by halves and a move of those after it.
#[inline(never)]
pub(crate) fn put_rising(list: &mut Vec<u32>, number: u32)
    requires rising { IsRising list.old.items }
    requires room { (vec_len list.old < vec_capacity list.old) ⊎ In number list.old.items }
    ensures rising { IsRising list.new.items }
    ensures numbers { (n : ℕ) → In n list.new.items ↔ (In n list.old.items ⊎ (n ≡ number)) }
    ensures there { In number list.old.items → list.new.items ≡ list.old.items }
    ensures length { vec_len list.new ≤ vec_len list.old + 1 }
    ensures capacity { vec_capacity list.old ≤ vec_capacity list.new }
{
    if is_above(list, number) {
        list.push_reserved(number);
        return;
    }
    if let Err(place) = list.binary_search(&number) {
        list.insert(place, number).unwrap();
    }
}

// Takes a number out: a search by halves, and a move of those after it.
pub(crate) fn take_rising(list: &mut Vec<u32>, number: u32)
    requires { IsRising list.old.items }
    ensures rising { IsRising list.new.items }
    ensures numbers { (n : ℕ) → In n list.new.items ↔ (In n list.old.items × (n ≢ number)) }
    ensures length { vec_len list.new ≤ vec_len list.old }
{
    if let Ok(place) = list.binary_search(&number) {
        list.remove(place);
    }
}
