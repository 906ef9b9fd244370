// exp and ln for a program outside, so that the bits of their answers can be looked at as they are. The desk's library calls both with numbers alone, and words cross its border with one NaN.

#![tactic(auto)]

ghost use Rattle.std.specs.Prelude.{◌≡◌};
ghost use Rattle.elementary.specs.Exp.{exp_of};
ghost use Rattle.elementary.specs.Ln.{ln_of};

#[unsafe(no_mangle)]
pub extern "C" fn brothanchor_probe_exp(x: f64) -> f64
    ensures { result ≡ exp_of x }
{
    elementary::exp(x)
}

#[unsafe(no_mangle)]
pub extern "C" fn brothanchor_probe_ln(v: f64) -> f64
    ensures { result ≡ ln_of v }
{
    elementary::ln(v)
}
