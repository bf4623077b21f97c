// The numbers of a TFM file that lig/kern programs use, after lib.rs: `FixWord` (lines 1701 to 1778) and `Char` (1029
// to 1091). Scaling is TeX's own arithmetic: TeX 568 for z, 572 for alpha and beta, 571 for the bytes.
#![tactic(auto)]

ghost use Rattle.std.specs.Prelude.{◌≡◌, ◌<◌, ◌^◌, ◌/◌, ◌%◌, leb};
ghost use Rattle.tfm.specs.Scaled.{scaling_number, scaled_reply, to_scaled, z_of_design, multiplier, Below};
ghost use Rattle.tfm.specs.Scaled.{low_bytes, scaled_from};
ghost use Rattle.tfm.specs.Scaled.{z_refusal, magnified, words_refusal, z_at, is_asked, design_word};
ghost use Rattle.tfm.specs.Scaled.{asked_refusal, design_at, sized, scaled_at};

// A fix_word: a number in units of 2^-20.
#[derive(Clone, Copy)]
pub struct FixWord(pub i32);

// Why a number is not scaled.
#[derive(Clone, Copy)]
pub enum ScalingError {
    // The design size is negative.
    NegativeDesignSize,
    // The top byte of the number is neither 0 nor 255.
    TooLarge,
    // The size is out of range, or a size and a magnification are asked for.
    SizeOutOfRange,
}

impl ScalingError {
    // The number of its refusal.
    pub fn number(self) -> u32
        ensures { result ≡ scaling_number self }
    {
        match self {
            ScalingError::NegativeDesignSize => 5,
            ScalingError::TooLarge => 13,
            ScalingError::SizeOutOfRange => 19,
        }
    }
}

impl FixWord {
    pub const ZERO: FixWord = FixWord(0);

    pub const ONE: FixWord = FixWord(1048576);

    // This number times the design size, in scaled points.
    pub fn at_design_size(self, design_size: FixWord) -> Result<i32, ScalingError>
        ensures { scaled_reply result ≡ scaled_reply (to_scaled self.0 design_size.0) }
    {
        let design = words::word_of(design_size.0);
        if 2147483648 <= design {
            return Err(ScalingError::NegativeDesignSize);
        }
        let word = words::word_of(self.0);
        scaled_from(z_of_design(design), word)
    }

    // This number times a size, or times the design size magnified, in scaled points; zero is not asked for.
    pub fn to_scaled(
        self,
        design_size: FixWord,
        size: i32,
        magnification: i32,
    ) -> Result<i32, ScalingError>
        ensures { scaled_reply result ≡ scaled_reply (scaled_at self.0 design_size.0 size magnification) }
    {
        let at = FixWord(design_at(design_size.0, size, magnification));
        let number = asked_refusal(design_size.0, size, magnification);
        size_scaled(number, self.at_design_size(at))
    }
}

// What was scaled, unless the size's number refuses it; 13 comes before that.
fn size_scaled(number: u32, scaled: Result<i32, ScalingError>) -> Result<i32, ScalingError>
    ensures { result ≡ sized number scaled }
{
    let v = scaled?;
    if number == 0 {
        Ok(v)
    } else {
        Err(ScalingError::SizeOutOfRange)
    }
}

// 19 of a size and a magnification, any two numbers.
pub fn asked_refusal(design_size: i32, size: i32, magnification: i32) -> u32
    ensures { result ≡ asked_refusal design_size size magnification }
{
    words_refusal(
        words::word_of(design_size),
        words::word_of(size),
        words::word_of(magnification),
    )
}

// The design size at which scaling is scaling at this size.
pub fn design_at(design_size: i32, size: i32, magnification: i32) -> i32
    ensures { result ≡ design_at design_size size magnification }
{
    let design = words::word_of(design_size);
    if 2147483648 <= design {
        return design_size;
    }
    words::number_of(design_word(design, words::word_of(size), words::word_of(magnification)))
}

// The same of the 32 bits of the three, the design size not negative.
fn design_word(design: u32, size: u32, magnification: u32) -> u32
    ensures { result ≡ design_word design size magnification }
{
    if !is_asked(size, magnification) {
        return design;
    }
    if words_refusal(design, size, magnification) != 0 {
        return 0;
    }
    16 * (z_at(design, size, magnification) as u32)
}

fn is_asked(size: u32, magnification: u32) -> bool
    ensures { result ≡ is_asked size magnification }
{
    size != 0 || magnification != 0
}

// 19, by the 32 bits of the three.
fn words_refusal(design: u32, size: u32, magnification: u32) -> u32
    ensures { result ≡ words_refusal design size magnification }
{
    if size != 0 {
        if magnification != 0 {
            return 19;
        }
        return z_refusal(size as u64);
    }
    if magnification == 0 {
        return 0;
    }
    if 32768 < magnification {
        return 19;
    }
    z_refusal(magnify(design, magnification))
}

// 19 unless z is from 1 and below 2^27.
fn z_refusal(z: u64) -> u32
    ensures { result ≡ z_refusal z }
{
    if z < 1 {
        return 19;
    }
    if z <= 134217727 { 0 } else { 19 }
}

// z of the design size, of the size or magnified.
fn z_at(design: u32, size: u32, magnification: u32) -> u64
    ensures { result ≡ z_at design size magnification }
{
    if size != 0 {
        return size as u64;
    }
    if magnification == 0 {
        return z_of_design(design) as u64;
    }
    magnify(design, magnification)
}

// z of the design size times a magnification in thousandths: the product needs 64 bits.
fn magnify(design: u32, magnification: u32) -> u64
    ensures { result ≡ magnified design magnification }
{
    (z_of_design(design) as u64) * (magnification as u64) / 1000
}

// z below 2^23, and alpha before it is multiplied by z.
#[derive(Clone, Copy)]
pub struct Multiplier {
    pub z: u32,
    pub alpha: u32,
}

// z from a design size.
fn z_of_design(design: u32) -> u32
    ensures { result ≡ z_of_design design }
{
    design / 16
}

// z halved until it is below 2^23, alpha doubled as often.
fn halve(size: u32) -> Multiplier
    requires { size < 2 ^ 27 }
    ensures { result ≡ multiplier size }
{
    let mut z = size;
    let mut alpha: u32 = 16;
    while 8388608 <= z {
        z = z / 2;
        alpha = alpha + alpha;
    }
    Multiplier { z, alpha }
}

// The three low bytes times z, from the lowest up.
fn low_bytes(m: Multiplier, word: u32) -> u32
    requires { Below m }
    ensures { result ≡ low_bytes m (word / 65536 % 256) (word / 256 % 256) (word % 256) }
{
    let b = word / 65536 % 256;
    let c = word / 256 % 256;
    let d = word % 256;
    ((d * m.z / 256 + c * m.z) / 256 + b * m.z) / (256 / m.alpha)
}

// The number with these 32 bits, scaled from z.
fn scaled_from(z: u32, word: u32) -> Result<i32, ScalingError>
    requires { z < 2 ^ 27 }
    ensures { result ≡ scaled_from z word }
{
    let m = halve(z);
    let low = low_bytes(m, word);
    let top = word / 16777216;
    if top == 0 {
        let v = low as i32;
        return Ok(v);
    }
    if top == 255 {
        // The top byte 255 stands for -16.
        let sixteen = m.alpha * m.z;
        let v = (low as i32) - (sixteen as i32);
        return Ok(v);
    }
    Err(ScalingError::TooLarge)
}

// A character of a TFM file: one byte.
#[derive(Clone, Copy)]
pub struct Char(pub u8);

impl Char {
    pub fn is_seven_bit(self) -> bool
        ensures { result ≡ leb self.0 127 }
    {
        self.0 <= 127
    }
}
