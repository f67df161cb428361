// Documents of a walk over four records, and the frames of it.

// A list of four records on node 0: keys 10 to 40, values 1 to 4. The request looks for the key 30.
pub(crate) const LIST: &str = "program = '''
record node { key: u64; val: u64; next: ptr; }
iter find on node {
  pad { key: u64; got: u64; }
  init(head: ptr, key: int) { pad.key = key; go head; }
  end {
    if cur.key == pad.key { pad.got = cur.val; done; }
    if cur.next == null { done; }
  }
  next { go cur.next; }
}
'''
[[region]]
base = 4096
hex = \"0a0000000000000001000000000000001810000000000000\
140000000000000002000000000000003010000000000000\
1e0000000000000003000000000000004810000000000000\
280000000000000004000000000000000000000000000000\"
[[request]]
iter = \"find\"
args = [4096, 30]
";

// A list of three records, one on each of three nodes: keys 10 to 30, values 1 to 3. The request looks for the key 30.
pub(crate) const THREE_NODES: &str = "program = '''
record node { key: u64; val: u64; next: ptr; }
iter find on node {
  pad { key: u64; got: u64; }
  init(head: ptr, key: int) { pad.key = key; go head; }
  end {
    if cur.key == pad.key { pad.got = cur.val; done; }
    if cur.next == null { done; }
  }
  next { go cur.next; }
}
'''
nodes = 3
tries = 1000
[[region]]
base = 4096
node = 0
hex = \"0a0000000000000001000000000000000020000000000000\"
[[region]]
base = 8192
node = 1
hex = \"140000000000000002000000000000000030000000000000\"
[[region]]
base = 12288
node = 2
hex = \"1e0000000000000003000000000000000000000000000000\"
[[request]]
iter = \"find\"
args = [4096, 30]
";

// The first leg of the request: 64 iterations left, at 4096, and a pad of the key 30 and a zero.
pub(crate) const LEG: &[u8] = &[
    0x50, 0x4c, 1, 1, 0, 0, 0, 0, 0, 0, 0, 0, 0, 0, 0, 0, 64, 0, 0, 0, 0, 0x10, 0, 0, 0, 0, 0, 0,
    16, 0, 0x1e, 0, 0, 0, 0, 0, 0, 0, 0, 0, 0, 0, 0, 0, 0, 0,
];

// Its back: done with 61 left, and the value 3 in the pad.
pub(crate) const DONE: &[u8] = &[
    0x50, 0x4c, 1, 2, 0, 0, 0, 0, 0, 0, 0, 0, 0, 0, 0, 0, 61, 0, 1, 0, 0, 0, 0, 0, 0, 0, 0, 0, 16,
    0, 0x1e, 0, 0, 0, 0, 0, 0, 0, 3, 0, 0, 0, 0, 0, 0, 0,
];

// A leg on node 1: 16 iterations left, at 8192, and a pad of 16 zero bytes.
pub(crate) const INNER: &[u8] = &[
    0x50, 0x4c, 1, 1, 0, 0, 0, 0, 0, 0, 0, 0, 0, 0, 0, 0, 16, 0, 0, 0, 0, 0x20, 0, 0, 0, 0, 0, 0,
    16, 0, 0, 0, 0, 0, 0, 0, 0, 0, 0, 0, 0, 0, 0, 0, 0, 0,
];

pub(crate) const STOP: &[u8] = &[
    0x50, 0x4c, 1, 3, 0, 0, 0, 0, 0, 0, 0, 0, 0, 0, 0, 0, 0, 0, 0, 0, 0, 0, 0, 0, 0, 0, 0, 0, 0, 0,
];

// The text of the client's request once it is answered.
pub(crate) const ANSWER: &str = "request 0 done 3 1e000000000000000300000000000000\nend\n";
