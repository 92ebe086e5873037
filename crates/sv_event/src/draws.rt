// Drawn orders.
ghost use Rattle.std.specs.Prelude.{◌≡◌, ◌<◌, ◌%◌, length};
ghost use Rattle.std.specs.List.{range_with_len};
ghost use Rattle.sv_flat.specs.Schedules.{next_state, drawn, round};

/// Makes the list the order of the next round, and gives the state that its draws made: the numbers
/// in order, and then from the last entry down to the second each is exchanged with a drawn one.
pub fn draw_round(order: &mut [usize], start: u64) -> u64
    ensures order { order.new ≡ (round (length order.old) start).order }
    ensures state { result ≡ (round (length order.old) start).state }
{
    put_numbers(order);
    let mut state = start;
    let mut left = order.len();
    while left > 1 {
        left -= 1;
        state = next_state(state);
        order.swap(left, drawn_below(state, left + 1));
    }
    state
}

// Makes the list the numbers from 0 on.
fn put_numbers(order: &mut [usize])
    ensures { order.new ≡ range_with_len 0 (length order.old) }
{
    for k in 0..order.len() {
        order[k] = k;
    }
}

// The state that a draw makes of a state.
fn next_state(state: u64) -> u64
    ensures { result ≡ next_state state }
{
    state
        .wrapping_mul(6364136223846793005)
        .wrapping_add(1442695040888963407)
}

// The number that a draw gives, below a bound.
fn drawn_below(state: u64, bound: usize) -> usize
    requires { 0 < bound }
    ensures value { result ≡ drawn state % bound }
    ensures below { result < bound }
{
    ((state >> 33) % bound as u64) as usize
}
