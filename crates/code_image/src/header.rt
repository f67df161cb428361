// The first 14 bytes of an image. `Header::bytes` and `Header::read` are the one place in the code that knows their
// layout.

ghost use Rattle.std.specs.Prelude.{◌≡◌, ◌++◌, ◌≤◌, length};
ghost use Rattle.std.specs.Int.{w8, w16, w32, to_le_bytes};
ghost use Rattle.code_image.specs.Layout.{header_bytes, HeaderFits, IsHeaded};

/// The bytes of a header.
pub const HEADER_LEN: usize = 14;

/// The bytes `50 4c 49 4d`, as a little-endian number.
pub const MAGIC: u32 = 0x4d49_4c50;

pub const VERSION: u8 = 1;

/// The numbers of an image's first 14 bytes, in their order there, whatever they are.
#[derive(Clone, Copy, Debug, PartialEq, Eq)]
pub struct Header {
    pub magic: u32,
    pub version: u8,
    pub args: u8,
    pub record_size: u16,
    pub pad_size: u16,
    pub init_words: u16,
    pub body_words: u16,
}

impl Header {
    pub fn bytes(self) -> [u8; 14]
        ensures bytes { result ≡ header_bytes self }
        ensures fits { HeaderFits self }
    {
        let [m0, m1, m2, m3] = self.magic.to_le_bytes();
        let [r0, r1] = self.record_size.to_le_bytes();
        let [p0, p1] = self.pad_size.to_le_bytes();
        let [i0, i1] = self.init_words.to_le_bytes();
        let [b0, b1] = self.body_words.to_le_bytes();
        [
            m0,
            m1,
            m2,
            m3,
            self.version,
            self.args,
            r0,
            r1,
            p0,
            p1,
            i0,
            i1,
            b0,
            b1,
        ]
    }

    /// The header at the start of the bytes, and the bytes after it.
    pub fn read(bytes: &[u8]) -> (Header, &[u8])
        requires { 14 ≤ length bytes.now }
        ensures { IsHeaded bytes.now result.0 result.1.now }
    {
        let (magic, bytes) = read_u32(bytes);
        let (version, bytes) = read_u8(bytes);
        let (args, bytes) = read_u8(bytes);
        let (record_size, bytes) = read_u16(bytes);
        let (pad_size, bytes) = read_u16(bytes);
        let (init_words, bytes) = read_u16(bytes);
        let (body_words, bytes) = read_u16(bytes);
        let header = Header {
            magic,
            version,
            args,
            record_size,
            pad_size,
            init_words,
            body_words,
        };
        (header, bytes)
    }
}

// Each reads a number from the front, and gives the bytes after it too.

fn read_u8(bytes: &[u8]) -> (u8, &[u8])
    requires { 1 ≤ length bytes.now }
    ensures { bytes.now ≡ to_le_bytes w8 result.0 ++ result.1.now }
{
    (bytes[0], &bytes[1..])
}

fn read_u16(bytes: &[u8]) -> (u16, &[u8])
    requires { 2 ≤ length bytes.now }
    ensures { bytes.now ≡ to_le_bytes w16 result.0 ++ result.1.now }
{
    let (front, rest) = bytes.split_at(2);
    (u16::from_le_bytes([front[0], front[1]]), rest)
}

fn read_u32(bytes: &[u8]) -> (u32, &[u8])
    requires { 4 ≤ length bytes.now }
    ensures { bytes.now ≡ to_le_bytes w32 result.0 ++ result.1.now }
{
    let (front, rest) = bytes.split_at(4);
    (
        u32::from_le_bytes([front[0], front[1], front[2], front[3]]),
        rest,
    )
}
