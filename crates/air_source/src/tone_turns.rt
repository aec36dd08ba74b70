// Remainders, and sums of them.
ghost use Rattle.std.specs.Prelude.{◌≡◌, ℕ, ◌+◌, ◌*◌, ◌%◌, ◌<◌, ◌≤◌, pos, negsuc, ◌-ℤ◌, ◌≤ℤ◌, slice_index};

// The remainders of so many times 0 to 11 by a number.
pub(crate) fn steps_by(each: u32, turn: u32) -> [u32; 12]
    requires each { each < 100 }
    requires turn { 1 ≤ turn }
    ensures { (re : ℕ) → re < 12 → slice_index result re ≡ each * re % turn }
{
    let mut steps = [0; 12];
    for re in 0..12u32 {
        steps[re as usize] = each * re % turn;
    }
    steps
}

// The remainder of a number.
#[inline(always)]
pub(crate) fn rest_of(v: u64, turn: u32) -> u32
    requires { 1 ≤ turn }
    ensures value { result ≡ v % turn }
    ensures small { result < turn }
{
    (v % u64::from(turn)) as u32
}

// The remainder of a sum, from the remainders of its two parts.
#[inline(always)]
pub(crate) fn stepped(rest: u32, step: u32, turn: u32) -> u32
    requires most { turn ≤ 65536 }
    requires rest { rest < turn }
    requires step { step < turn }
    ensures value { (v n : ℕ) → rest ≡ v % turn → step ≡ n % turn → result ≡ (v + n) % turn }
    ensures small { result < turn }
{
    let sum = rest + step;
    // (below 0 this wraps to more than the sum: the lesser of both is one instruction for several samples)
    let less = sum.wrapping_sub(turn);
    if less < sum { less } else { sum }
}

// A remainder by twice the amplitude as a number from minus the amplitude up to one below it.
#[inline(always)]
pub(crate) fn wave_of(rest: u32, amplitude: u32) -> i32
    requires most { amplitude ≤ 32768 }
    requires rest { rest < 2 * amplitude }
    ensures value { result ≡ pos rest -ℤ pos amplitude }
    ensures from { negsuc 32767 ≤ℤ result }
    ensures up_to { result ≤ℤ pos 32767 }
{
    rest as i32 - amplitude as i32
}
