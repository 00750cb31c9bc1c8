// Products of bytes by a table of logarithm codes (docs/SCOPE.md, "The byte table"): two look-ups, a sum and three shifts. Any two bytes
// are accepted, and their product is design 1's.
#![tactic(auto)]

ghost use Rattle.std.specs.Prelude.{◌≡◌, ◌/◌, ◌<◌};
ghost use Rattle.designs.specs.Codes.{scaled_product};
ghost use Rattle.byte_table.specs.Table.{CodeTable, CodeSum, TableProduct};

// At the place v ≥ 1, with v = 2^k + a, stands its code 128 × k + a × 2^(7−k). The 0 at place 0 is read by no sum.
const CODES: [u16; 256] = [
    0, 0, 128, 192, 256, 288, 320, 352, 384, 400, 416, 432, 448, 464, 480, 496, 512, 520, 528, 536,
    544, 552, 560, 568, 576, 584, 592, 600, 608, 616, 624, 632, 640, 644, 648, 652, 656, 660, 664,
    668, 672, 676, 680, 684, 688, 692, 696, 700, 704, 708, 712, 716, 720, 724, 728, 732, 736, 740,
    744, 748, 752, 756, 760, 764, 768, 770, 772, 774, 776, 778, 780, 782, 784, 786, 788, 790, 792,
    794, 796, 798, 800, 802, 804, 806, 808, 810, 812, 814, 816, 818, 820, 822, 824, 826, 828, 830,
    832, 834, 836, 838, 840, 842, 844, 846, 848, 850, 852, 854, 856, 858, 860, 862, 864, 866, 868,
    870, 872, 874, 876, 878, 880, 882, 884, 886, 888, 890, 892, 894, 896, 897, 898, 899, 900, 901,
    902, 903, 904, 905, 906, 907, 908, 909, 910, 911, 912, 913, 914, 915, 916, 917, 918, 919, 920,
    921, 922, 923, 924, 925, 926, 927, 928, 929, 930, 931, 932, 933, 934, 935, 936, 937, 938, 939,
    940, 941, 942, 943, 944, 945, 946, 947, 948, 949, 950, 951, 952, 953, 954, 955, 956, 957, 958,
    959, 960, 961, 962, 963, 964, 965, 966, 967, 968, 969, 970, 971, 972, 973, 974, 975, 976, 977,
    978, 979, 980, 981, 982, 983, 984, 985, 986, 987, 988, 989, 990, 991, 992, 993, 994, 995, 996,
    997, 998, 999, 1000, 1001, 1002, 1003, 1004, 1005, 1006, 1007, 1008, 1009, 1010, 1011, 1012,
    1013, 1014, 1015, 1016, 1017, 1018, 1019, 1020, 1021, 1022, 1023,
];

// The product of two bytes. A product with a zero byte is 0; neither byte is looked up then.
pub fn table_product(a: u8, b: u8) -> u16
    ensures { TableProduct a b result }
{
    if a == 0 || b == 0 {
        return 0;
    }
    product_of(code_sum(&CODES, a, b))
}

// The codes of two bytes that are not 0, added.
fn code_sum(codes: &[u16; 256], a: u8, b: u8) -> u16
    requires code_table { CodeTable codes.now }
    requires a_nonzero { (0 < a) × (0 < b) }
    ensures { CodeSum a b result }
{
    codes[a as usize] + codes[b as usize]
}

// (128 + R) × 2^Q / 128, with quotient Q and rest R of a sum of two codes on division by 128.
fn product_of(sum: u16) -> u16
    requires { sum < 2048 }
    ensures { result ≡ scaled_product 7 sum / 128 }
{
    let quotient = sum >> 7;
    let rest = sum % 128;
    (((128 + rest) as u32) << quotient >> 7) as u16
}
