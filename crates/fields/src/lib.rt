// Document 01's fields: a one-byte tag, a two-byte length, a value; and the big-endian numbers in them, read and written.

#![tactic(auto)]

ghost use Rattle.std.specs.Prelude.{◌≡◌, ◌+◌, ◌*◌, ◌<◌, ◌≤◌, [], length};
ghost use Rattle.lists.specs.Build.{put};
ghost use Rattle.fields.specs.Numbers.{u16_at, u32_at, i16_at, i32_at, u16_bytes, u32_bytes};
ghost use Rattle.fields.specs.Fields.{field_is_right, field_value, head_size, field_bytes, layout_size, layout_is_right};

// The bytes of a tag and a length, which stand before the value.
pub const HEAD: usize = 3;

// A tag, and the length of the value behind it.
#[derive(Clone, Copy, Debug, PartialEq, Eq)]
pub struct Field {
    pub tag: u8,
    pub size: u16,
}

// ---- numbers. One line for each type, which has its own `from_be_bytes` and `to_be_bytes`: a trait over them would have longer impls.

pub fn u16_at(bytes: &[u8], at: usize) -> u16
    requires { at + 1 < length bytes.now }
    ensures { result ≡ u16_at bytes.now at }
{
    u16::from_be_bytes([bytes[at], bytes[at + 1]])
}

pub fn u32_at(bytes: &[u8], at: usize) -> u32
    requires { at + 3 < length bytes.now }
    ensures { result ≡ u32_at bytes.now at }
{
    u32::from_be_bytes([bytes[at], bytes[at + 1], bytes[at + 2], bytes[at + 3]])
}

pub fn i16_at(bytes: &[u8], at: usize) -> i64
    requires { at + 1 < length bytes.now }
    ensures { result ≡ i16_at bytes.now at }
{
    i64::from(u16_at(bytes, at).cast_signed())
}

pub fn i32_at(bytes: &[u8], at: usize) -> i64
    requires { at + 3 < length bytes.now }
    ensures { result ≡ i32_at bytes.now at }
{
    i64::from(u32_at(bytes, at).cast_signed())
}

// ---- fields

// Whether this field's tag and length begin at `at`.
fn field_is_right(bytes: &[u8], at: usize, field: Field) -> bool
    requires { at + head_size ≤ length bytes.now }
    ensures { result ≡ field_is_right bytes.now at field }
{
    bytes[at] == field.tag && u16_at(bytes, at + 1) == field.size
}

// The value of the field that begins at `at`, as a part of `bytes`; the empty part where its tag or its length is wrong.
pub fn value_at(bytes: &[u8], at: usize, field: Field) -> &[u8]
    requires { at + head_size + field.size ≤ length bytes.now }
    ensures { result.now ≡ field_value bytes.now at field }
{
    if !field_is_right(bytes, at, field) {
        return &[];
    }
    let start = at + HEAD;
    let end = start + usize::from(field.size);
    &bytes[start..end]
}

// Whether every tag and length of the layout is right, from the front of `bytes` on.
pub fn layout_is_right(bytes: &[u8], layout: &[Field]) -> bool
    requires { layout_size layout.now ≤ length bytes.now }
    ensures { result ≡ layout_is_right bytes.now 0 layout.now }
{
    let mut at = 0;
    for &field in layout {
        if !field_is_right(bytes, at, field) {
            return false;
        }
        at += HEAD + usize::from(field.size);
    }
    true
}

// ---- writing

pub fn put_u16(out: &mut [u8], at: usize, n: u16)
    requires { at + 2 ≤ length out.old }
    ensures { out.new ≡ put out.old at (u16_bytes n) }
{
    lists::copy(&n.to_be_bytes(), out, at);
}

pub fn put_u32(out: &mut [u8], at: usize, word: u32)
    requires { at + 4 ≤ length out.old }
    ensures { out.new ≡ put out.old at (u32_bytes word) }
{
    lists::copy(&word.to_be_bytes(), out, at);
}

// A tag and a length.
pub fn put_head(out: &mut [u8], at: usize, field: Field)
    requires { at + head_size ≤ length out.old }
    ensures { out.new ≡ put out.old at (field_bytes field []) }
{
    out[at] = field.tag;
    put_u16(out, at + 1, field.size);
}
