ghost use Rattle.tfm.specs.Scaled.{scaled_at, scaled_reply};
ghost use Rattle.c_scale.specs.Scaling.{TellsScaled};

// A kern in scaled points, at the design size or, where one is not zero, at a size or by a magnification.
#[unsafe(no_mangle)]
pub extern "C" fn ligkern_to_scaled(
    kern: i32,
    design_size: i32,
    size: i32,
    magnification: i32,
    scaled: &mut [i32],
) -> u32
    ensures { TellsScaled (scaled_reply (scaled_at kern design_size size magnification))
        scaled.old result scaled.new }
{
    c_scale::ligkern_to_scaled(kern, design_size, size, magnification, scaled)
}
