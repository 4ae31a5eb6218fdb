// A Leaf's body and its extent, against the path that leads to it.
ghost use Rattle.std.specs.Prelude.{◌+◌, ◌≤◌, ◌<◌, ◌≡◌, [], false, length, take, drop};
ghost use Rattle.layout.specs.Number.{le};
ghost use Rattle.layout.specs.Place.{leaf_stamp};
ghost use Rattle.pieces.specs.Decides.{Decides};
ghost use Rattle.model.specs.Edition.{edition2};
ghost use Rattle.editions.specs.Rules.{rules_of};
ghost use Rattle.shape.specs.Shape.{ExtentFits, Ends, Under, PlainUnder, LeafTold};

use editions::{Edition, Editioned};
use fields::body::Leaf;

// Where the extent of a good Leaf lies, and how many bytes it has, rounded up.
#[derive(Clone, Copy, Debug, PartialEq, Eq)]
pub struct Extent {
    pub place: usize,
    pub size: usize,
}

// The extent lies between d and b at a multiple of 8.
fn extent_fits(e: usize, size: usize, d: usize, b: usize) -> bool
    requires { (e < 4294967296) × (size < 4294967296) }
    ensures { Decides (ExtentFits e size d b) result }
{
    if e % 8 != 0 {
        return false;
    }
    if e < d {
        return false;
    }
    e + size <= b
}

// A path ends within a key of k bytes, or with the byte 0 behind it.
fn ends(path: &[u8], k: usize) -> bool
    ensures { Decides (Ends path.now k (length path.now)) result }
{
    if path.len() <= k {
        return true;
    }
    if path.len() != k + 1 {
        return false;
    }
    path[k] == 0
}

// The k bytes at e are a legal key of edition 1, and its walked string, a byte 0 at its end, begins with the path.
fn plain_good(f: &[u8], e: usize, k: usize, path: &[u8]) -> bool
    requires { e + k ≤ length f.now }
    ensures { Decides (PlainUnder path.now (take k (drop e f.now))) result }
{
    if k < 1 {
        return false;
    }
    if k > Edition::First.longest_key() {
        return false;
    }
    if !ends(path, k) {
        return false;
    }
    if !pieces::same(f, e, path, 0, path.len().min(k)) {
        return false;
    }
    if k < pieces::HALF {
        return pieces::no_zero(f, e, e + k);
    }
    // a key of 8 bytes or more is tested where it stands: no call for each Leaf
    pieces::full_by(f, e, e + k, pieces::HALF)
}

// The key is a legal one of edition 2, and its walked string begins with the path.
fn escaped_good(key: &[u8], path: &[u8]) -> bool
    ensures { Decides (Under edition2 path.now key.now) result }
{
    if keys::fault(key, Edition::Second).is_err() {
        return false;
    }
    keys::escaped_begins(key, path)
}

// The k bytes at e are a legal key, and its walked string begins with the path.
fn key_good(f: &[u8], e: usize, k: usize, path: &[u8], edition: Edition) -> bool
    requires { e + k ≤ length f.now }
    ensures { Decides (Under (rules_of edition) path.now (take k (drop e f.now))) result }
{
    match edition {
        Edition::First => plain_good(f, e, k, path),
        Edition::Second => escaped_good(&f[e..e + k], path),
    }
}

// The Leaf at o has a stamp of the edition: edition 1 keeps zero there, and in edition 2 every number of eight bytes is one.
fn stamp_good(f: &[u8], o: usize, edition: Edition) -> bool
    requires { o + 16 ≤ length f.now }
    ensures { Decides (le 8 f.now (o + leaf_stamp) < (rules_of edition).stamps) result }
{
    match edition {
        Edition::First => Leaf::unstamped(f, o),
        Edition::Second => true,
    }
}

// The k bytes at e are a legal key, to which the path leads if one does.
fn key_led<const LED: bool>(f: &[u8], e: usize, k: usize, path: &[u8], edition: Edition) -> bool
    requires inside { e + k ≤ length f.now }
    requires lone { LED ≡ false → path.now ≡ [] }
    ensures { Decides (Under (rules_of edition) path.now (take k (drop e f.now))) result }
{
    if LED {
        return key_good(f, e, k, path, edition);
    }
    keys::fault(&f[e..e + k], edition).is_ok()
}

// The body at o is a Leaf's whose extent lies between d and b, and the path leads to it. Where none does, another instance stands for it: tried as
// one, its second caller took up to 1.11 of a check's instructions.
fn good<const LED: bool>(
    f: &[u8],
    o: usize,
    path: &[u8],
    d: usize,
    b: usize,
    edition: Edition,
) -> Option<Extent>
    requires room { (o + 16 ≤ length f.now) × (b ≤ length f.now) }
    requires lone { LED ≡ false → path.now ≡ [] }
    ensures { LeafTold (rules_of edition) f.now path.now o d b result }
{
    let e = Leaf::extent(f, o);
    let k = Leaf::key_length(f, o);
    let size = Leaf::rounded(k + Leaf::value_length(f, o));
    if !extent_fits(e, size, d, b) {
        return None;
    }
    if !stamp_good(f, o, edition) {
        return None;
    }
    if !key_led::<LED>(f, e, k, path, edition) {
        return None;
    }
    Some(Extent { place: e, size })
}

// A Leaf to which the path leads.
pub fn leaf_good<E: Editioned>(
    f: &[u8],
    o: usize,
    path: &[u8],
    d: usize,
    b: usize,
    edition: E,
) -> Option<Extent>
    requires { (o + 16 ≤ length f.now) × (b ≤ length f.now) }
    ensures { LeafTold (E.rules edition) f.now path.now o d b result }
{
    good::<true>(f, o, path, d, b, edition.edition())
}

// A Leaf to which no path leads, so that its key is only to be a legal one.
pub fn lone_good<E: Editioned>(f: &[u8], o: usize, d: usize, b: usize, edition: E) -> Option<Extent>
    requires { (o + 16 ≤ length f.now) × (b ≤ length f.now) }
    ensures { LeafTold (E.rules edition) f.now [] o d b result }
{
    good::<false>(f, o, &[], d, b, edition.edition())
}
