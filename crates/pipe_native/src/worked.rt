//! Worked values, as laws over the definitions: each holds by computation.

ghost use Rattle.std.specs.Prelude.{◌≡◌, pos, negsuc};
ghost use Rattle.pipe_native.specs.Native.{native_i8, native_u8, remainder};

/// What each kind of number type keeps of a number.
pub fn kept_numbers()
    ensures signed { native_i8.number (native_i8.wrap (pos 200)) ≡ negsuc 55 }
    ensures unsigned { native_u8.number (native_u8.wrap (negsuc 55)) ≡ pos 200 }
    ensures bits { remainder 3 (negsuc 0) ≡ 7 }
{}
