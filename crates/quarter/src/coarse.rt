// Each sixteenth entry of the quarter table, T(0), T(16), .., T(256). That they follow the same rule is proved of `coarse_table`.
pub const SIXTEENTHS: [u32; 17] = [
    32768, 32610, 32138, 31357, 30274, 28899, 27246, 25330, 23170, 20788, 18205, 15447, 12540,
    9512, 6393, 3212, 0,
];
