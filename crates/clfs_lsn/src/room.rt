// Writing into vectors whose memory was taken before, so that nothing is refused on the way.
ghost use Rattle.std.specs.Prelude.{◌≡◌, ◌+◌, ◌≤◌, ◌++◌, length, replicate, vec_len, vec_capacity};

/// Appends bytes for which there is memory.
pub fn push_reserved(out: &mut Vec<u8>, more: &[u8])
    requires { vec_len out.old + length more.now ≤ vec_capacity out.old }
    ensures items { out.new.items ≡ out.old.items ++ more.now }
    ensures capacity { vec_capacity out.old ≤ vec_capacity out.new }
{
    out.extend_from_slice(more).unwrap();
}

/// Appends zeros for which there is memory.
pub fn push_zeros(out: &mut Vec<u8>, count: usize)
    requires { vec_len out.old + count ≤ vec_capacity out.old }
    ensures items { out.new.items ≡ out.old.items ++ replicate count 0 }
    ensures capacity { vec_capacity out.old ≤ vec_capacity out.new }
{
    let end = out.len() + count;
    out.resize(end, 0).unwrap();
}
