ghost use Rattle.std.specs.Prelude.{◌≤◌, length};

// A sheet as far as the lines of a list have built it, in bytes that are lent (with a count, not an ArrayVec: fixed memory of the caller). What goes beyond them is dropped.
#[derive(Drop)]
pub struct Sheet<'a> {
    pub(crate) bytes: &'a mut [u8],
    pub(crate) len: usize,
    ghost fits: { len ≤ length bytes.now },
}
