// A table of fixed size, by its places. By index: the contract of a slice's `get_mut` doesn't tell what a write through it leaves.
ghost use Rattle.std.specs.Prelude.{◌≡◌, Some, None, IfSome, MatchOption, slice_index_or, slice_set};
ghost use Rattle.std.specs.Fn.{FnOnceReturnsAtMut, FnOnceTakesAtMut};

// A write at a place of a table, where it has that place.
pub fn write<T: Copy>(table: &mut [T], place: usize, x: T)
    ensures { table.new ≡ slice_set table.old place x }
{
    if place < table.len() {
        table[place] = x;
    }
}

// A change of what stands at a place of a table, where something does.
pub fn edit<T, F: FnOnce(&mut T)>(table: &mut [Option<T>], place: usize, change: F)
    requires { IfSome (slice_index_or table.old place None) (λ x. FnOnceTakesAtMut F.FnOnce change x) }
    ensures { MatchOption (slice_index_or table.old place None) (table.new ≡ table.old) (λ x. (next : _) × FnOnceReturnsAtMut F.FnOnce change x tt next × (table.new ≡ slice_set table.old place (Some next))) }
{
    if place >= table.len() {
        return;
    }
    if let Some(x) = &mut table[place] {
        change(x);
    }
}
