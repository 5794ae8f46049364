// The script for a number and a size.

ghost use Rattle.std.specs.Prelude.{◌≡◌, ◌≤◌, IfOk, length};
ghost use Rattle.rb_workload.specs.Script as spec;

use itoa::Buffer;
use std::alloc::{AllocError, Global};

/// What stands before the size of the array.
const ARRAY: &str = "$a = Array.new(";

/// What stands between that size and the number.
const THREADS: &str = ", 0)
$m = Mutex.new
$t = 0
threads = []
4.times do |k|
  threads << Thread.new(k) do |j|
    s = ";

/// What stands between the number and the size again.
const LOOP: &str = " + j
    i = j
    while i < ";

/// What stands behind the size.
const SUMS: &str = "
      s = (s * 1103515245 + 12345) % 2147483648
      $a[i] = s % 1000
      i += 4
    end
    $m.synchronize { $t += s % 1000 }
  end
end
threads.each { |x| x.join }
sum = 0
$a.each { |v| sum += v }
puts sum
puts $t
";

/// The text of the script, which begins at this number and fills so many places.
pub fn script(alloc: Global, number: u64, size: u64) -> Result<Vec<u8>, AllocError>
    ensures lines { IfOk result (λ text. text.items ≡ spec.script number size) }
    ensures short { IfOk result (λ text. length text.items ≤ 1000) }
{
    let mut numbers = Buffer::new();
    let mut sizes = Buffer::new();
    let number = numbers.format(number).as_bytes();
    let size = sizes.format(size).as_bytes();
    let mut text = Vec::from_slice(alloc, ARRAY.as_bytes())?;
    text.extend_from_slice(size)?;
    text.extend_from_slice(THREADS.as_bytes())?;
    text.extend_from_slice(number)?;
    text.extend_from_slice(LOOP.as_bytes())?;
    text.extend_from_slice(size)?;
    text.extend_from_slice(SUMS.as_bytes())?;
    Ok(text)
}
