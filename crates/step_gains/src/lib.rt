// The new gain, increment and position of one element, by value.

#![tactic(auto)]

ghost use Rattle.std.specs.Prelude.{◌≡◌};
ghost use Rattle.step_gains.specs.Gains.{changed, floored, gain_of, increment_of, new_of};

// An element's new values, before centring.
#[derive(Clone, Copy)]
pub struct Element {
    pub gain: f64,
    pub increment: f64,
    pub moved: f64,
}

fn changed_gain(gain: f64, gradient: f64, increment: f64) -> f64
    ensures { result ≡ changed gain gradient increment }
{
    if gradient * increment > 0.0 {
        return gain * 0.8;
    }
    gain + 0.2
}

fn floored_gain(gain: f64) -> f64
    ensures { result ≡ floored gain }
{
    if gain < 0.01 {
        return 0.01;
    }
    gain
}

fn new_gain(gain: f64, gradient: f64, increment: f64) -> f64
    ensures { result ≡ gain_of gain gradient increment }
{
    floored_gain(changed_gain(gain, gradient, increment))
}

fn new_increment(momentum: f64, rate: f64, gain: f64, gradient: f64, increment: f64) -> f64
    ensures { result ≡ increment_of momentum rate gain gradient increment }
{
    momentum * increment - rate * gain * gradient
}

// The new values of an element.
pub fn new_element(
    momentum: f64,
    rate: f64,
    gradient: f64,
    position: f64,
    increment: f64,
    gain: f64,
) -> Element
    ensures { result ≡ new_of momentum rate gradient position increment gain }
{
    let g = new_gain(gain, gradient, increment);
    let v = new_increment(momentum, rate, g, gradient, increment);
    Element {
        gain: g,
        increment: v,
        moved: position + v,
    }
}
