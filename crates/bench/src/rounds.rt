// Many questions in a row.

// Asks of many numbers below an end, in long steps, over and over; the sum keeps the compiler from leaving the work out.
pub fn summed<F: Fn(u64) -> u64>(rounds: u64, end: u64, ask: F) -> u64
    requires { F.IsAlwaysCallable ask }
{
    // two numbers go on from turn to turn
    let mut sum: u64 = 0;
    let mut at: u64 = 0;
    for _ in 0..rounds {
        sum = sum.wrapping_add(ask(at));
        at = at.wrapping_add(4_099);
        if at >= end {
            at = 0;
        }
    }
    sum
}
