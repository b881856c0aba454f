// Tables, read and written at any index.
ghost use Rattle.std.specs.Prelude.{◌≡◌, slice_index_or, slice_set};

// What stands at n, or the default past the end.
pub fn at<T: Copy>(table: &[T], n: usize, default: T) -> T
    ensures { result ≡ slice_index_or table.now n default }
{
    table.get(n).copied().unwrap_or(default)
}

// Writes v at n, or nothing past the end.
pub fn put<T: Copy>(table: &mut [T], n: usize, v: T)
    ensures { table.new ≡ slice_set table.old n v }
{
    // `get_mut` says of the table afterwards only its length, so the write goes by index.
    if n < table.len() {
        table[n] = v;
    }
}
