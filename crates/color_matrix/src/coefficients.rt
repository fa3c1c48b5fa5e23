// The nine numbers of Saturate and HueRotate.
ghost use Rattle.std.specs.Prelude.{◌≡◌};
ghost use Rattle.color_matrix.specs.Coefficients as Coefficients;

fn at_least_zero(v: f32) -> f32
    ensures { result ≡ Coefficients.at_least_zero v }
{
    if v > 0.0 { v } else { 0.0 }
}

// Of a saturation, which counts as 0 below 0.
pub fn saturation(saturation: f32) -> [f32; 9]
    ensures { result ≡ Coefficients.saturation (Coefficients.at_least_zero saturation) }
{
    let v = at_least_zero(saturation);
    [
        0.213 + 0.787 * v,
        0.715 - 0.715 * v,
        0.072 - 0.072 * v,
        0.213 - 0.213 * v,
        0.715 + 0.285 * v,
        0.072 - 0.072 * v,
        0.213 - 0.213 * v,
        0.715 - 0.715 * v,
        0.072 + 0.928 * v,
    ]
}

// Of the cosine and the sine of an angle.
pub fn rotation(a1: f32, a2: f32) -> [f32; 9]
    ensures { result ≡ Coefficients.rotation a1 a2 }
{
    [
        0.213 + 0.787 * a1 - 0.213 * a2,
        0.715 - 0.715 * a1 - 0.715 * a2,
        0.072 - 0.072 * a1 + 0.928 * a2,
        0.213 - 0.213 * a1 + 0.143 * a2,
        0.715 + 0.285 * a1 + 0.140 * a2,
        0.072 - 0.072 * a1 - 0.283 * a2,
        0.213 - 0.213 * a1 - 0.787 * a2,
        0.715 - 0.715 * a1 + 0.715 * a2,
        0.072 + 0.928 * a1 + 0.072 * a2,
    ]
}
