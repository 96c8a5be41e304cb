//! Rows of at most 32 items whose room was taken at birth.
ghost use Rattle.std.specs.Prelude.{◌≡◌, ℕ, ◌+◌, ◌-◌, ◌<◌, ◌≤◌, [], ◌∷◌, ◌++◌, take, drop, vec_len, vec_capacity};
ghost use Rattle.std.specs.Prelude.{slice_index_or, IfOk};
ghost use Rattle.std.specs.List.{insert, remove};

use std::alloc::{AllocError, Allocator};

/// The most items of a row.
pub const FULL: usize = 32;

/// The fewest items of a row that is not the root's.
pub const LEAST: usize = 16;

/// An empty row with room for a full one.
pub fn empty_row<T, A: Allocator>(alloc: A) -> Result<Vec<T, A>, AllocError>
    ensures items { IfOk result (λ row. row.items ≡ []) }
    ensures len { IfOk result (λ row. vec_len row ≡ 0) }
    ensures room { IfOk result (λ row. vec_capacity row ≡ 32) }
{
    Vec::with_capacity(alloc, FULL)
}

/// Puts an item at a place of a row that is not full.
pub fn insert_at<T: Drop, A: Allocator>(row: &mut Vec<T, A>, place: usize, item: T)
    requires in_range { place ≤ vec_len row.old }
    requires room { vec_len row.old < vec_capacity row.old }
    ensures items { row.new.items ≡ insert row.old.items place item }
    ensures len { vec_len row.new ≡ vec_len row.old + 1 }
    ensures capacity { vec_capacity row.new ≡ vec_capacity row.old }
{
    if row.insert(place, item).is_err() {
        unreachable!()
    }
}

/// Moves the items from a place on to the end of another row.
pub fn move_upper<T: Drop, A: Allocator>(row: &mut Vec<T, A>, place: usize, right: &mut Vec<T, A>)
    requires in_range { place ≤ vec_len row.old }
    requires room { vec_len right.old + (vec_len row.old - place) ≤ vec_capacity right.old }
    ensures kept { row.new.items ≡ take place row.old.items }
    ensures len { vec_len row.new ≡ place }
    ensures capacity { vec_capacity row.new ≡ vec_capacity row.old }
    ensures moved { right.new.items ≡ right.old.items ++ drop place row.old.items }
    ensures right_len { vec_len right.new ≡ vec_len right.old + (vec_len row.old - place) }
    ensures right_capacity { vec_capacity right.new ≡ vec_capacity right.old }
{
    for item in row.drain(place..) {
        right.push_reserved(item);
    }
}

/// Moves so many items from the front of the right row to the end of the left one.
pub fn move_front<T: Drop, A: Allocator>(left: &mut Vec<T, A>, right: &mut Vec<T, A>, count: usize)
    requires in_range { count ≤ vec_len right.old }
    requires room { vec_len left.old + count ≤ vec_capacity left.old }
    ensures moved { left.new.items ≡ left.old.items ++ take count right.old.items }
    ensures len { vec_len left.new ≡ vec_len left.old + count }
    ensures capacity { vec_capacity left.new ≡ vec_capacity left.old }
    ensures kept { right.new.items ≡ drop count right.old.items }
    ensures right_len { vec_len right.new + count ≡ vec_len right.old }
    ensures right_capacity { vec_capacity right.new ≡ vec_capacity right.old }
{
    for item in right.drain(..count) {
        left.push_reserved(item);
    }
}

/// Moves the first item of the right row to the end of the left one.
pub fn borrow_first<T: Drop, A: Allocator>(left: &mut Vec<T, A>, right: &mut Vec<T, A>)
    requires some { 0 < vec_len right.old }
    requires room { vec_len left.old < vec_capacity left.old }
    ensures joined { left.new.items ++ right.new.items ≡ left.old.items ++ right.old.items }
    ensures len { vec_len left.new ≡ vec_len left.old + 1 }
    ensures right_len { vec_len right.new + 1 ≡ vec_len right.old }
    ensures capacity { vec_capacity left.new ≡ vec_capacity left.old }
    ensures right_capacity { vec_capacity right.new ≡ vec_capacity right.old }
{
    left.push_reserved(right.remove(0));
}

/// Moves an item from the fuller of two rows to the other.
pub fn borrow<T: Drop, A: Allocator>(left: &mut Vec<T, A>, right: &mut Vec<T, A>)
    requires some { 0 < vec_len left.old + vec_len right.old }
    requires room { vec_len left.old < vec_len right.old → vec_len left.old < vec_capacity left.old }
    requires right_room { vec_len right.old ≤ vec_len left.old → vec_len right.old < vec_capacity right.old }
    ensures joined { left.new.items ++ right.new.items ≡ left.old.items ++ right.old.items }
    ensures from_right { vec_len left.old < vec_len right.old → (vec_len left.new ≡ vec_len left.old + 1)
        × (vec_len right.new + 1 ≡ vec_len right.old) }
    ensures from_left { vec_len right.old ≤ vec_len left.old → (vec_len left.new + 1 ≡ vec_len left.old)
        × (vec_len right.new ≡ vec_len right.old + 1) }
    ensures capacity { vec_capacity left.new ≡ vec_capacity left.old }
    ensures right_capacity { vec_capacity right.new ≡ vec_capacity right.old }
{
    if left.len() < right.len() {
        borrow_first(left, right);
    } else {
        borrow_last(left, right);
    }
}

/// Moves all items of the right row to the end of the left one.
pub fn merge<T: Drop, A: Allocator>(left: &mut Vec<T, A>, right: &mut Vec<T, A>)
    requires room { vec_len left.old + vec_len right.old ≤ vec_capacity left.old }
    ensures items { left.new.items ≡ left.old.items ++ right.old.items }
    ensures len { vec_len left.new ≡ vec_len left.old + vec_len right.old }
    ensures capacity { vec_capacity left.old ≤ vec_capacity left.new }
    ensures rest { right.new.items ≡ [] }
    ensures rest_len { vec_len right.new ≡ 0 }
    ensures rest_capacity { vec_capacity right.new ≡ vec_capacity right.old }
{
    if left.append(right).is_err() {
        unreachable!()
    }
}

/// Moves the last item of the left row to the front of the right one.
pub fn borrow_last<T: Drop, A: Allocator>(left: &mut Vec<T, A>, right: &mut Vec<T, A>)
    requires some { 0 < vec_len left.old }
    requires room { vec_len right.old < vec_capacity right.old }
    ensures joined { left.new.items ++ right.new.items ≡ left.old.items ++ right.old.items }
    ensures len { vec_len left.new + 1 ≡ vec_len left.old }
    ensures right_len { vec_len right.new ≡ vec_len right.old + 1 }
    ensures capacity { vec_capacity left.new ≡ vec_capacity left.old }
    ensures right_capacity { vec_capacity right.new ≡ vec_capacity right.old }
{
    let last = left.remove(left.len() - 1);
    insert_at(right, 0, last);
}

/// Puts an item at a place of a full row, whose upper half goes to an empty one.
pub fn split_into<T: Drop, A: Allocator>(
    row: &mut Vec<T, A>,
    place: usize,
    item: T,
    upper: &mut Vec<T, A>,
)
    requires in_range { place ≤ 32 }
    requires full { vec_len row.old ≡ 32 }
    requires room { 32 ≤ vec_capacity row.old }
    requires empty { upper.old.items ≡ [] }
    requires upper_room { 32 ≤ vec_capacity upper.old }
    ensures joined { row.new.items ++ upper.new.items ≡ insert row.old.items place item }
    ensures low { 16 ≤ vec_len row.new }
    ensures upper_low { 16 ≤ vec_len upper.new }
    ensures all { vec_len row.new + vec_len upper.new ≡ 33 }
    ensures capacity { vec_capacity row.new ≡ vec_capacity row.old }
    ensures upper_capacity { vec_capacity upper.new ≡ vec_capacity upper.old }
{
    move_upper(row, LEAST, upper);
    if place <= LEAST {
        insert_at(row, place, item);
        return;
    }
    insert_at(upper, place - LEAST, item);
}
