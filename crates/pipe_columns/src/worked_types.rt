//! Worked numbers at the edges of their types, as laws over the definitions: each holds by
//! computation.

ghost use Rattle.std.specs.Prelude.{◌≡◌, pos, negsuc};
ghost use Rattle.pipe_columns.specs.declared.data_type.DataType.TheVariants as dt;
ghost use Rattle.pipe_columns.specs.DataType.{wrapped};

/// Types with a sign: past the greatest number comes the least, and the other way round.
pub fn past_signed_edges()
    ensures above { wrapped dt.Int8 (pos 128) ≡ negsuc 127 }
    ensures below { wrapped dt.Int16 (negsuc 32768) ≡ pos 32767 }
    ensures round { wrapped dt.Int32 (pos 4294967296) ≡ pos 0 }
    ensures day { wrapped dt.Date (pos 2147483648) ≡ negsuc 2147483647 }
    ensures widest { wrapped dt.Int64 (pos 9223372036854775808) ≡ negsuc 9223372036854775807 }
    ensures kept { wrapped dt.Int8 (negsuc 127) ≡ negsuc 127 }
{}

/// Types without one: past the greatest number comes 0, and below 0 the greatest.
pub fn past_unsigned_edges()
    ensures above { wrapped dt.UInt8 (pos 256) ≡ pos 0 }
    ensures below { wrapped dt.UInt16 (negsuc 0) ≡ pos 65535 }
    ensures round { wrapped dt.UInt32 (pos 4294967299) ≡ pos 3 }
    ensures widest { wrapped dt.UInt64 (negsuc 1) ≡ pos 18446744073709551614 }
    ensures kept { wrapped dt.UInt8 (pos 255) ≡ pos 255 }
{}
