// The body of a Prefix: written whole, with a byte more in front or at the end, with bytes of another one, with its first or its last bytes
// cut off, and in two bodies.
#![tactic(auto)]

ghost use Rattle.std.specs.Prelude.{◌≡◌, List, [], ◌∷◌, ◌++◌, ℕ, ◌+◌, ◌≤◌, ◌<◌, length, get_or, take, drop};
ghost use Rattle.model.specs.Body.{PrefixAt};
ghost use Rattle.moves.specs.Moved.{Only};
ghost use Rattle.prefix_body.specs.Prefix.{PrefixWritten, Spare, Gets, Joins, Longer, Shortened, Drawn, Draws, Full, Elsewhere};

use fields::body::Prefix;
use moves::fill;

// ---- written whole

// Child, length, bytes, and zeros.
pub fn write(f: &mut [u8], o: usize, child: usize, bytes: &[u8])
    requires { (o + 128 ≤ length f.old) × (1 ≤ length bytes.now) × (length bytes.now ≤ 112) × (child < 4294967296) }
    ensures { PrefixWritten f.old f.new o bytes.now child }
{
    let n = bytes.len();
    moves::clear(f, o, Prefix::SIZE);
    Prefix::set_child(f, o, child);
    Prefix::set_length(f, o, n);
    fill::paste(f, o + Prefix::BYTES, bytes);
}

// One byte and a child.
pub fn fresh(f: &mut [u8], o: usize, b: u8, child: usize)
    requires { (o + 128 ≤ length f.old) × (child < 4294967296) }
    ensures { Only f.old f.new o (o + 128) × PrefixAt f.new o (b ∷ []) child }
{
    write(f, o, child, &[b]);
}

// ---- joined

// The byte b joins in front.
pub fn front(f: &mut [u8], o: usize, b: u8)
    requires { Spare f.old o 1 }
    ensures { Only f.old f.new o (o + 128) × ((p : List ℕ) (c : ℕ) → PrefixAt f.old o p c → PrefixAt f.new o (b ∷ p) c) }
{
    let n = Prefix::length(f, o);
    let at = o + Prefix::BYTES;
    moves::open::<1>(f, at, at + n, usize::from(b));
    Prefix::set_length(f, o, n + 1);
}

// The byte b joins at the end, and the child is another.
pub fn back(f: &mut [u8], o: usize, b: u8, child: usize)
    requires { Spare f.old o 1 × (child < 4294967296) }
    ensures { Only f.old f.new o (o + 128) × ((p : List ℕ) (c : ℕ) → PrefixAt f.old o p c → PrefixAt f.new o (p ++ b ∷ []) child) }
{
    let n = Prefix::length(f, o);
    Prefix::set_byte(f, o, n, b);
    Prefix::set_length(f, o, n + 1);
    Prefix::set_child(f, o, child);
}

// The first k bytes of the Prefix at `low` join at the end.
fn more(f: &mut [u8], o: usize, low: usize, k: usize)
    requires { Gets f.old o low k }
    ensures { Only f.old f.new o (o + 128)
        × ((p : List ℕ) (c : ℕ) (q : List ℕ) (d : ℕ) → PrefixAt f.old o p c → PrefixAt f.old low q d → PrefixAt f.new o (p ++ take k q) c) }
{
    let n = Prefix::length(f, o);
    moves::slide(f, low + Prefix::BYTES, o + Prefix::BYTES + n, k);
    Prefix::set_length(f, o, n + k);
}

// All of them do, and the child is that one's.
pub fn onto(f: &mut [u8], o: usize, low: usize)
    requires { Joins f.old o low }
    ensures { Only f.old f.new o (o + 128)
        × ((p : List ℕ) (c : ℕ) (q : List ℕ) (d : ℕ) → PrefixAt f.old o p c → PrefixAt f.old low q d → PrefixAt f.new o (p ++ q) d) }
{
    let m = Prefix::length(f, low);
    let child = Prefix::child(f, low);
    more(f, o, low, m);
    Prefix::set_child(f, o, child);
}

// ---- cut

// The first q bytes go.
pub fn drop_front(f: &mut [u8], o: usize, q: usize)
    requires { Longer f.old o q }
    ensures { Shortened f.old f.new o q }
{
    let n = Prefix::length(f, o);
    let left = n - q;
    let at = o + Prefix::BYTES;
    moves::slide(f, at + q, at, left);
    moves::clear(f, at + left, q);
    Prefix::set_length(f, o, left);
}

// The first byte goes.
pub fn drop_first(f: &mut [u8], o: usize)
    requires { Longer f.old o 1 }
    ensures { Shortened f.old f.new o 1 }
{
    let n = Prefix::length(f, o);
    let at = o + Prefix::BYTES;
    moves::close::<1>(f, at, at + n);
    Prefix::set_length(f, o, n - 1);
}

// A Prefix at o of the bytes from q on of another, above the same child.
pub fn tail(f: &mut [u8], o: usize, from: usize, q: usize)
    requires { Longer f.old from q × (o + 128 ≤ length f.old) × Elsewhere o from }
    ensures { Only f.old f.new o (o + 128) × ((p : List ℕ) (c : ℕ) → PrefixAt f.old from p c → PrefixAt f.new o (drop q p) c) }
{
    let left = Prefix::length(f, from) - q;
    let child = Prefix::child(f, from);
    moves::clear(f, o, Prefix::SIZE);
    Prefix::set_child(f, o, child);
    Prefix::set_length(f, o, left);
    moves::slide(f, from + Prefix::BYTES + q, o + Prefix::BYTES, left);
}

// The first q bytes stay, above another child.
pub fn keep(f: &mut [u8], o: usize, q: usize, child: usize)
    requires { Longer f.old o q × (1 ≤ q) × (child < 4294967296) }
    ensures { Only f.old f.new o (o + 128) × ((p : List ℕ) (c : ℕ) → PrefixAt f.old o p c → PrefixAt f.new o (take q p) child) }
{
    let n = Prefix::length(f, o);
    moves::clear(f, o + Prefix::BYTES + q, n - q);
    Prefix::set_length(f, o, q);
    Prefix::set_child(f, o, child);
}

// The Prefix at o is filled up: the first bytes of the Prefix at `low` go over to its end.
pub fn draw(f: &mut [u8], o: usize, low: usize)
    requires { Draws f.old o low }
    ensures { Drawn f.old f.new o low }
{
    let k = Prefix::MOST - Prefix::length(f, o);
    more(f, o, low, k);
    drop_front(f, low, k);
}

// The byte b joins a full Prefix in front, and its last byte, which is told, goes.
pub fn turn(f: &mut [u8], o: usize, b: u8) -> u8
    requires { Full f.old o }
    ensures { Only f.old f.new o (o + 128)
        × ((p : List ℕ) (c : ℕ) → PrefixAt f.old o p c → (result ≡ get_or p 111 0) × PrefixAt f.new o (b ∷ take 111 p) c) }
{
    let last = Prefix::byte(f, o, Prefix::MOST - 1);
    let at = o + Prefix::BYTES;
    moves::open::<1>(f, at, at + (Prefix::MOST - 1), usize::from(b));
    last
}
