// The script for numbers and sizes of different lengths.

use crate::script;
use std::alloc::{AllocError, Global};
use std::test::Fail;

/// The script for the number 1 and the size 4.
const FIRST: &str = "$a = Array.new(4, 0)
$m = Mutex.new
$t = 0
threads = []
4.times do |k|
  threads << Thread.new(k) do |j|
    s = 1 + j
    i = j
    while i < 4
      s = (s * 1103515245 + 12345) % 2147483648
      $a[i] = s % 1000
      i += 4
    end
    $m.synchronize { $t += s % 1000 }
  end
end
threads.each { |x| x.join }
sum = 0
$a.each { |v| sum += v }
puts sum
puts $t
";

/// A number, a size, and how many bytes their script has.
const SIZES: [(u64, u64, usize); 4] = [
    (0, 1, 363),
    (2_147_483_647, 1, 372),
    (0, 100_000, 373),
    (2_147_483_647, 100_000, 382),
];

/// Whether the script is this text.
fn reads(alloc: Global, number: u64, size: u64, text: &str) -> Result<bool, AllocError> {
    Ok(script(alloc, number, size)?.as_slice() == text.as_bytes())
}

#[test]
fn whole_text(rt: HostRuntime) -> Result<(), Fail> {
    assert!(rt; reads(rt.alloc(), 1, 4, FIRST)?);
    Ok(())
}

#[test]
fn sizes_of_texts(rt: HostRuntime) -> Result<(), Fail> {
    for (number, size, bytes) in SIZES.iter() {
        assert_eq!(rt; script(rt.alloc(), *number, *size)?.len(), *bytes);
    }
    Ok(())
}
