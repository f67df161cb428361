// The programs of the three kinds.

ghost use Rattle.std.specs.Prelude.{◌≡◌};
ghost use Rattle.shape_build.specs.Programs.{list_program, buckets_program, btree_program};

#[tactic(auto, unfolding(crate::specs::Programs::list_program))]
pub(crate) fn list_program() -> &'static str
    ensures { result.now ≡ list_program }
{
    "record node { key: u64; val: u64; next: ptr; }
iter find on node {
  pad { key: u64; got: u64; }
  init(head: ptr, key: int) { pad.key = key; go head; }
  end {
    if cur.key == pad.key { pad.got = cur.val; done; }
    if cur.next == null { done; }
  }
  next { go cur.next; }
}
iter bump on node {
  pad { hits: u64; }
  init(head: ptr) { go head; }
  end {
    cur.val = cur.val + 1; pad.hits = pad.hits + 1;
    if cur.next == null { done; }
  }
  next { go cur.next; }
}
"
}

#[tactic(auto, unfolding(crate::specs::Programs::buckets_program))]
pub(crate) fn buckets_program() -> &'static str
    ensures { result.now ≡ buckets_program }
{
    "record node { key: u64; val: u64; next: ptr; }
iter lookup on node {
  pad { key: u64; got: u64; }
  init(table: ptr, key: int) { pad.key = key; go at(table, (key % 64) * 24); }
  end {
    if cur.key == pad.key { pad.got = cur.val; done; }
    if cur.next == null { done; }
  }
  next { go cur.next; }
}
iter add on node {
  pad { key: u64; by: u64; }
  init(table: ptr, key: int, by: int) { pad.key = key; pad.by = by; go at(table, (key % 64) * 24); }
  end {
    if cur.key == pad.key { cur.val = cur.val + pad.by; done; }
    if cur.next == null { done; }
  }
  next { go cur.next; }
}
"
}

#[tactic(auto, unfolding(crate::specs::Programs::btree_program))]
pub(crate) fn btree_program() -> &'static str
    ensures { result.now ≡ btree_program }
{
    "record tree { count: u16; leaf: u8; keys: [u64; 15]; kids: [ptr; 16]; }
iter find on tree {
  pad { key: u64; hit: u64; got: ptr; }
  init(root: ptr, key: int) { pad.key = key; go root; }
  end {
    if cur.leaf == 1 {
      for i in 0..15 {
        if i < cur.count && cur.keys[i] == pad.key { pad.got = cur.kids[i]; pad.hit = 1; }
      }
      done;
    }
  }
  next {
    let c = cur.kids[0];
    for i in 0..15 {
      if i < cur.count && cur.keys[i] <= pad.key { c = cur.kids[i + 1]; }
    }
    go c;
  }
}
iter put on tree {
  pad { key: u64; hit: u64; val: ptr; }
  init(root: ptr, key: int, val: ptr) { pad.key = key; pad.val = val; go root; }
  end {
    if cur.leaf == 1 {
      for i in 0..15 {
        if i < cur.count && cur.keys[i] == pad.key { cur.kids[i] = pad.val; pad.hit = 1; }
      }
      done;
    }
  }
  next {
    let c = cur.kids[0];
    for i in 0..15 {
      if i < cur.count && cur.keys[i] <= pad.key { c = cur.kids[i + 1]; }
    }
    go c;
  }
}
"
}
