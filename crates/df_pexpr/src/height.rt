//! How high trees are, counted while they are read.

ghost use Rattle.std.specs.Prelude.{◌≡◌, max};
ghost use Rattle.df_pexpr.specs.mirror.Construction as pure;
ghost use Rattle.df_tree.specs.Grammar as spec;

use df_tree::Counting;

/// How many expressions, types, patterns, statements and blocks may stand inside one another.
pub(crate) const HEIGHT_LIMIT: usize = 200;

fn one_more(height: usize) -> usize
    ensures { result ≡ spec.one_more height }
{
    if height < HEIGHT_LIMIT {
        height + 1
    } else {
        HEIGHT_LIMIT + 1
    }
}

fn larger(a: usize, b: usize) -> usize
    ensures { result ≡ max a b }
{
    a.max(b)
}

/// The height that is left for the trees of a production.
pub(crate) fn room_inside(counting: Counting, room: usize) -> usize
    ensures { result ≡ pure.room_inside counting room }
{
    match counting {
        Counting::Never | Counting::IfMore => room,
        Counting::Always | Counting::Each => room.saturating_sub(1),
    }
}

/// The height before the first tree of a production.
pub(crate) fn height_at(counting: Counting, before: usize) -> usize
    ensures { result ≡ pure.height_at counting before }
{
    match counting {
        Counting::Never | Counting::Always | Counting::IfMore => 0,
        Counting::Each => before,
    }
}

/// The height before a further one.
pub(crate) fn height_before(counting: Counting, height: usize) -> usize
    ensures { result ≡ pure.height_before counting height }
{
    match counting {
        Counting::Never | Counting::Always | Counting::IfMore => height,
        Counting::Each => 0,
    }
}

/// The height behind it.
pub(crate) fn height_behind(counting: Counting, height: usize, found: usize) -> usize
    ensures { result ≡ pure.height_behind counting height found }
{
    match counting {
        Counting::Never | Counting::Always | Counting::IfMore => found,
        Counting::Each => one_more(larger(height, found)),
    }
}

/// The height of a production and of what stands before it.
pub(crate) fn counted(counting: Counting, before: usize, height: usize, filled: bool) -> usize
    ensures { result ≡ spec.counted counting before height height filled }
{
    match counting {
        Counting::Never => larger(before, height),
        Counting::Always => larger(before, one_more(height)),
        Counting::IfMore => larger(before, if filled { one_more(height) } else { height }),
        Counting::Each => height,
    }
}
