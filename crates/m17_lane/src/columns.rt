//! Columns and rows: how a row is put at the ends of the columns, and taken from there again.
ghost use Rattle.std.specs.Prelude.{◌≡◌, ◌+◌, ◌<◌, ◌≤◌, [], map, All, length, vec_len, vec_capacity};
ghost use Rattle.std.specs.List.{AllZip};
ghost use Rattle.m17_lane.specs.Columns.{each_with};

/// Puts each item of the row at the end of the column with its place. It empties the row, and wants an item for each
/// column and room in each.
pub fn deal<T>(columns: &mut Vec<Vec<T>>, row: &mut Vec<T>)
    requires count { vec_len row.old ≡ vec_len columns.old }
    requires room { All (λ column. vec_len column < vec_capacity column) columns.old.items }
    ensures put { map (λ column. column.items) columns.new.items
        ≡ each_with (map (λ column. column.items) columns.old.items) row.old.items }
    ensures emptied { row.new.items ≡ [] }
    ensures rooms { AllZip (λ was is. (vec_len is ≡ vec_len was + 1)
        × (vec_capacity is ≡ vec_capacity was)) columns.old.items columns.new.items }
    ensures same_room { vec_capacity row.new ≡ vec_capacity row.old }
{
    while let Some(item) = row.pop() {
        let at = row.len();
        columns[at].push_reserved(item);
    }
}

/// Takes the last item of each column into the row, in the order of the columns. No column may be empty, and the row,
/// which is to be empty, has to have room for an item of each.
pub fn collect<T>(columns: &mut Vec<Vec<T>>, row: &mut Vec<T>)
    requires some { All (λ column. 0 < vec_len column) columns.old.items }
    requires empty { row.old.items ≡ [] }
    requires room { vec_len columns.old ≤ vec_capacity row.old }
    ensures taken { map (λ column. column.items) columns.old.items
        ≡ each_with (map (λ column. column.items) columns.new.items) row.new.items }
    ensures count { vec_len row.new ≡ vec_len columns.old }
    ensures same_length { vec_len columns.new ≡ vec_len columns.old }
    ensures same_room { vec_capacity row.new ≡ vec_capacity row.old }
{
    for at in 0..columns.len() {
        match columns[at].pop() {
            Some(item) => row.push_reserved(item),
            None => unreachable!(),
        }
    }
}
