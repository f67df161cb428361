// The first 30 bytes of a frame. `Header::write` and `Header::read` are the one place in the code that knows their
// layout: a further number is a line in each, and one in `header_bytes`.

ghost use Rattle.std.specs.Prelude.{◌≡◌, ◌+◌, ◌≤◌, [], ◌++◌, length};
ghost use Rattle.std.specs.Int.{w8, w16, w32, w64, to_le_bytes};
ghost use Rattle.frame_codec.specs.Layout.{header_bytes, HeaderFits, IsHeaded};

use arrayvec::ArrayVec;

/// The bytes of a header.
pub const HEADER_LEN: usize = 30;

/// The bytes of the longest frame: a header and a pad of 256.
pub const FRAME_MAX: usize = 286;

/// The bytes `50 4c`, as a little-endian number.
pub const MAGIC: u16 = 0x4c50;

pub const VERSION: u8 = 1;

/// The numbers of a frame's first 30 bytes, in their order there, whatever they are.
#[derive(Clone, Copy, Debug, PartialEq, Eq)]
pub struct Header {
    pub magic: u16,
    pub version: u8,
    /// 1 leg, 2 back, 3 stop.
    pub kind: u8,
    pub client: u16,
    pub request: u32,
    pub leg: u32,
    pub program: u16,
    pub left: u16,
    /// Of a back: 1 done, 2 reroute, 3 resume, 4 fault.
    pub ending: u8,
    /// Of a back that faulted: 1 unmapped, 2 not readable, 3 not writable, 4 division by zero.
    pub fault: u8,
    pub cur: u64,
    /// How many bytes follow.
    pub pad_len: u16,
}

impl Header {
    /// Puts the header at the start of a frame.
    pub fn write(self, out: &mut ArrayVec<u8, FRAME_MAX>)
        requires { out.old.items ≡ [] }
        ensures bytes { out.new.items ≡ header_bytes self }
        ensures fits { HeaderFits self }
    {
        let Header {
            magic,
            version,
            kind,
            client,
            request,
            leg,
            program,
            left,
            ending,
            fault,
            cur,
            pad_len,
        } = self;
        put(out, &magic.to_le_bytes());
        put(out, &version.to_le_bytes());
        put(out, &kind.to_le_bytes());
        put(out, &client.to_le_bytes());
        put(out, &request.to_le_bytes());
        put(out, &leg.to_le_bytes());
        put(out, &program.to_le_bytes());
        put(out, &left.to_le_bytes());
        put(out, &ending.to_le_bytes());
        put(out, &fault.to_le_bytes());
        put(out, &cur.to_le_bytes());
        put(out, &pad_len.to_le_bytes());
    }

    /// The header at the start of the bytes, and the bytes after it.
    pub fn read(bytes: &[u8]) -> (Header, &[u8])
        requires { 30 ≤ length bytes.now }
        ensures { IsHeaded bytes.now result.0 result.1.now }
    {
        let (magic, bytes) = read_u16(bytes);
        let (version, bytes) = read_u8(bytes);
        let (kind, bytes) = read_u8(bytes);
        let (client, bytes) = read_u16(bytes);
        let (request, bytes) = read_u32(bytes);
        let (leg, bytes) = read_u32(bytes);
        let (program, bytes) = read_u16(bytes);
        let (left, bytes) = read_u16(bytes);
        let (ending, bytes) = read_u8(bytes);
        let (fault, bytes) = read_u8(bytes);
        let (cur, bytes) = read_u64(bytes);
        let (pad_len, bytes) = read_u16(bytes);
        let header = Header {
            magic,
            version,
            kind,
            client,
            request,
            leg,
            program,
            left,
            ending,
            fault,
            cur,
            pad_len,
        };
        (header, bytes)
    }
}

/// Appends bytes for which there is room.
pub fn put(out: &mut ArrayVec<u8, FRAME_MAX>, bytes: &[u8])
    requires { length out.old.items + length bytes.now ≤ 286 }
    ensures { out.new.items ≡ out.old.items ++ bytes.now }
{
    let _ = out.try_extend_from_slice(bytes);
}

// Each reads a number from the front, and gives the bytes after it too.

fn read_u8(bytes: &[u8]) -> (u8, &[u8])
    requires { 1 ≤ length bytes.now }
    ensures { bytes.now ≡ to_le_bytes w8 result.0 ++ result.1.now }
{
    (bytes[0], &bytes[1..])
}

fn read_u16(bytes: &[u8]) -> (u16, &[u8])
    requires { 2 ≤ length bytes.now }
    ensures { bytes.now ≡ to_le_bytes w16 result.0 ++ result.1.now }
{
    let (front, rest) = bytes.split_at(2);
    (u16::from_le_bytes([front[0], front[1]]), rest)
}

fn read_u32(bytes: &[u8]) -> (u32, &[u8])
    requires { 4 ≤ length bytes.now }
    ensures { bytes.now ≡ to_le_bytes w32 result.0 ++ result.1.now }
{
    let (front, rest) = bytes.split_at(4);
    (
        u32::from_le_bytes([front[0], front[1], front[2], front[3]]),
        rest,
    )
}

fn read_u64(bytes: &[u8]) -> (u64, &[u8])
    requires { 8 ≤ length bytes.now }
    ensures { bytes.now ≡ to_le_bytes w64 result.0 ++ result.1.now }
{
    let (front, rest) = bytes.split_at(8);
    let number = u64::from_le_bytes([
        front[0], front[1], front[2], front[3], front[4], front[5], front[6], front[7],
    ]);
    (number, rest)
}
