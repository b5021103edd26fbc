// Laws on the bytes of logs.
ghost use Rattle.std.specs.Prelude.{◌≡◌, ◌≤◌, ◌++◌, ℕ, List, length};
ghost use Rattle.gated_log.specs.Log.{payloads_of, sized, IsLogOf};

/// A file that is a log of these payloads has these payloads, and no others.
pub fn payloads_of_log()
    ensures { (header : List ℕ) (payloads : List (List ℕ)) (bytes : List ℕ) → IsLogOf header payloads bytes → payloads_of bytes ≡ payloads }
{}

/// No payload with its length in front of it begins another.
pub fn no_record_begins_another(first: &[u8], second: &[u8])
    requires first { length first.now ≤ 1048576 }
    requires second { length second.now ≤ 1048576 }
    ensures { (more : List ℕ) → sized first.now ++ more ≡ sized second.now → first.now ≡ second.now }
{}
