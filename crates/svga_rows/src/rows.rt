//! Lists one behind another.
ghost use Rattle.std.specs.Prelude.{◌≡◌, ℕ, ◌+◌, ◌-◌, ◌≤◌, ◌<◌, ◌^◌, List, length, slice_index, slice_index_or, slice_set, slice_range, replicate, [], IfOk};
ghost use Rattle.svga_rows.specs.Rows.{AreStarts, lists_of, list_at, total_length, with_values};

use crate::fill::{Fill, fill_part};
use crate::shift::{put, replace_middle, shift};
use std::alloc::{AllocError, Global};
use std::marker::Model;

/// A fixed number of lists, which together may have so many items. List i goes from start i to start i + 1.
#[derive(Drop)]
pub struct Rows<T> {
    items: Vec<T>,
    starts: Vec<usize>,
}

impl<T> Model for Rows<T> {
    ghost use Rattle.svga_rows.specs.Rows.{Rows as RowsValue, lists_of, AreStarts};
    ghost use Rattle.std.specs.Prelude.{length};

    ghost Value = { RowsValue T };

    ghost view = { λ a.
        record { lists = lists_of a.starts.items a.items.items; room = length a.items.items } };

    ghost invariant = { λ a. AreStarts a.starts.items (length a.items.items) };
}

impl<T: Copy + Drop> Rows<T> {
    /// Empty lists, with room for so many items in all. The value fills the room
    /// until it is used, and is never seen.
    pub fn new(alloc: Global, lists: usize, room: usize, value: T) -> Result<Rows<T>, AllocError>
        requires { lists + 1 < 2 ^ 64 }
        ensures { IfOk result (λ rows. rows ≡ record { lists = replicate lists []; room = room }) }
    {
        let items = vec![in alloc; value; room]?;
        let starts = vec![in alloc; 0; lists + 1]?;
        Ok(Rows { items, starts })
    }

    /// The list with this number, from 0.
    pub fn list(&self, number: usize) -> &[T]
        requires { number < length self.now.lists }
        ensures { result.now ≡ list_at self.now number }
    {
        slice_between(&self.items, &self.starts, number)
    }

    /// How many items there are in all lists.
    pub fn total(&self) -> usize
        ensures total { result ≡ total_length self.now }
        ensures room { result ≤ self.now.room }
    {
        last_start(&self.items, &self.starts)
    }

    /// Replaces one item of a list; all else stays.
    pub fn set(&mut self, number: usize, index: usize, value: T)
        requires within { number < length self.old.lists }
        requires present { index < length (list_at self.old number) }
        ensures lists { self.new.lists ≡ slice_set self.old.lists number
            (slice_set (list_at self.old number) index value) }
        ensures room { self.new.room ≡ self.old.room }
    {
        set_at(&mut self.items, &self.starts, number, index, value);
    }

    /// Replaces the items of a list from an index on; all else stays.
    pub fn write(&mut self, number: usize, from: usize, values: &[T])
        requires within { number < length self.old.lists }
        requires fits { from + length values.now ≤ length (list_at self.old number) }
        ensures lists { self.new.lists ≡ slice_set self.old.lists number
            (with_values (list_at self.old number) from values.now) }
        ensures room { self.new.room ≡ self.old.room }
    {
        write_at(&mut self.items, &self.starts, number, from, values);
    }

    /// Lets a filler write the items of a list from an index on, where they stand; all else stays.
    pub fn fill<F: Fill<T>>(&mut self, number: usize, from: usize, count: usize, filler: &F)
        requires within { number < length self.old.lists }
        requires count { count ≡ length (F.values filler.now) }
        requires fits { from + count ≤ length (list_at self.old number) }
        ensures lists { self.new.lists ≡ slice_set self.old.lists number
            (with_values (list_at self.old number) from (F.values filler.now)) }
        ensures room { self.new.room ≡ self.old.room }
    {
        fill_at(&mut self.items, &self.starts, number, from, count, filler);
    }

    /// Replaces a list by one that has the value `count` times; all other lists stay. It
    /// moves what stands behind the list.
    pub fn replace(&mut self, number: usize, count: usize, value: T)
        requires within { number < length self.old.lists }
        requires room { total_length self.old - length (list_at self.old number) + count ≤ self.old.room }
        ensures lists { self.new.lists ≡ slice_set self.old.lists number (replicate count value) }
        ensures room { self.new.room ≡ self.old.room }
    {
        replace_at(&mut self.items, &mut self.starts, number, count, value);
    }
}

fn slice_between<'a, T>(items: &'a [T], starts: &[usize], number: usize) -> &'a [T]
    requires starts { AreStarts starts.now (length items.now) }
    requires within { number + 1 < length starts.now }
    ensures { result.now ≡ slice_range items.now (slice_index starts.now number)
        (slice_index starts.now (number + 1)) }
{
    let start = starts[number];
    let end = starts[number + 1];
    &items[start..end]
}

fn last_start<T>(items: &[T], starts: &[usize]) -> usize
    requires { AreStarts starts.now (length items.now) }
    ensures { result ≡ slice_index starts.now (length starts.now - 1) }
{
    let _count = items.len();
    starts[starts.len() - 1]
}

fn set_at<T: Copy>(items: &mut [T], starts: &[usize], number: usize, index: usize, value: T)
    requires starts { AreStarts starts.now (length items.old) }
    requires within { number + 1 < length starts.now }
    requires present { index < slice_index starts.now (number + 1) - slice_index starts.now number }
    ensures { lists_of starts.now items.new
        ≡ slice_set (lists_of starts.now items.old) number
        (slice_set (slice_index_or (lists_of starts.now items.old) number []) index value) }
{
    let start = starts[number];
    let _end = starts[number + 1];
    items[start + index] = value;
}

fn write_at<T: Copy>(items: &mut [T], starts: &[usize], number: usize, from: usize, values: &[T])
    requires starts { AreStarts starts.now (length items.old) }
    requires within { number + 1 < length starts.now }
    requires fits { from + length values.now
        ≤ slice_index starts.now (number + 1) - slice_index starts.now number }
    ensures { lists_of starts.now items.new
        ≡ slice_set (lists_of starts.now items.old) number
        (with_values (slice_index_or (lists_of starts.now items.old) number []) from values.now) }
{
    let start = starts[number];
    put(items, start + from, values);
}

fn fill_at<T, F: Fill<T>>(
    items: &mut [T],
    starts: &[usize],
    number: usize,
    from: usize,
    count: usize,
    filler: &F,
)
    requires starts { AreStarts starts.now (length items.old) }
    requires within { number + 1 < length starts.now }
    requires count { count ≡ length (F.values filler.now) }
    requires fits { from + count ≤ slice_index starts.now (number + 1) - slice_index starts.now number }
    ensures { lists_of starts.now items.new
        ≡ slice_set (lists_of starts.now items.old) number
        (with_values (slice_index_or (lists_of starts.now items.old) number []) from (F.values filler.now)) }
{
    let start = starts[number];
    fill_part(items, start + from, count, filler);
}

fn replace_at<T: Copy>(items: &mut [T], starts: &mut [usize], number: usize, count: usize, value: T)
    requires starts { AreStarts starts.old (length items.old) }
    requires within { number + 1 < length starts.old }
    requires room { slice_index starts.old (length starts.old - 1)
        - (slice_index starts.old (number + 1) - slice_index starts.old number) + count ≤ length items.old }
    ensures starts { AreStarts starts.new (length items.old) }
    ensures lists { lists_of starts.new items.new
        ≡ slice_set (lists_of starts.old items.old) number (replicate count value) }
{
    let start = starts[number];
    let end = starts[number + 1];
    let used = starts[starts.len() - 1];
    replace_middle(items, start, end, used, count, value);
    shift(starts, number + 1, end - start, count);
}
