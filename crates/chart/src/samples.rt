// Worked examples of reading.
ghost use Rattle.std.specs.Prelude.{◌≡◌};
ghost use Rattle.chart.specs.Samples.{bill as bill_bytes, Samples};

// The bytes of a chart that bills, for trying things out. How they are read, and how three slips in them are refused, is
// worked out in the contract.
pub fn bill() -> [u8; 48]
    ensures bytes { result ≡ bill_bytes }
    ensures samples { Samples }
{
    *b"\x04\x04\x00\x01\x07\x00\x00\x60\x00\x00\x00\x01\x00\x00\x00\x02\x60\x00\x00\x00\x02\x00\x00\x00\x04\x61\x03\x00\x00\x00\x04\x00\x00\x00\x08\x62\x00\x00\x00\x0e\x00\x00\x00\x04\x00\x00\x00\x02"
}
