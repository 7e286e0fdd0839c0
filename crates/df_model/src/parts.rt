//! Numbers and truths of parts.

ghost use Rattle.std.specs.Prelude.{◌≡◌, map};
ghost use Rattle.std.specs.List.{list_all, list_any};
ghost use Rattle.df_meaning.specs.Value.{same_truth};
ghost use Rattle.df_table.specs.TableModel.{number_at, is_true};
ghost use Rattle.df_model.specs.TableNumbers.{number_of_truth};

/// The number at a place; 0 past the end.
pub(crate) fn number_at(numbers: &[i128], place: usize) -> i128
    ensures { result ≡ number_at numbers.now place }
{
    match numbers.get(place) {
        Some(number) => *number,
        None => 0,
    }
}

pub(crate) fn number_of_truth(truth: bool) -> i128
    ensures { result ≡ number_of_truth truth }
{
    if truth { 1 } else { 0 }
}

pub(crate) fn is_same_truth(a: bool, b: bool) -> bool
    ensures { result ≡ same_truth a b }
{
    a == b
}

/// The number of a part by its place among the parts.
pub(crate) fn part(table: &[i128], parts: &[usize], place: usize) -> i128
    ensures { result ≡ number_at (map (number_at table.now) parts.now) place }
{
    match parts.get(place) {
        Some(part) => number_at(table, *part),
        None => 0,
    }
}

pub(crate) fn is_part_true(table: &[i128], parts: &[usize], place: usize) -> bool
    ensures { result ≡ is_true (map (number_at table.now) parts.now) place }
{
    1 <= part(table, parts, place)
}

pub(crate) fn are_all_true(table: &[i128], parts: &[usize]) -> bool
    ensures { result ≡ list_all (λ part. is_true table.now part) parts.now }
{
    parts.iter().all(|part| 1 <= number_at(table, *part))
}

pub(crate) fn is_any_true(table: &[i128], parts: &[usize]) -> bool
    ensures { result ≡ list_any (λ part. is_true table.now part) parts.now }
{
    parts.iter().any(|part| 1 <= number_at(table, *part))
}
