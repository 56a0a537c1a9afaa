//! Axes and numbers worked by hand.

ghost use Rattle.std.specs.Prelude.{◌≡◌, ◌-◌, ◌^◌, [], ◌∷◌, codes};
ghost use Rattle.tick_axis.specs.Places.{tick_place};
ghost use Rattle.tick_axis.specs.Marks.{step_of, marks_of, base_of};
ghost use Rattle.tick_axis.specs.Groups.{grouped};
ghost use Rattle.tick_axis.specs.Examples.{axis};

/// From 0 to 103 tens would be eleven marks, so every twentieth tick is marked.
pub fn ticks_from_0_to_103()
    ensures step { step_of (axis 0 103) ≡ 20 }
    ensures marks { marks_of (axis 0 103) ≡ 0 ∷ 20 ∷ 40 ∷ 60 ∷ 80 ∷ 100 ∷ [] }
    ensures base { base_of (axis 0 103) ≡ 0 }
    ensures left_end { tick_place (axis 0 103) 0 ≡ 96 }

    // 50 · 1160 / 103 is 563.1, and 102 · 1160 / 103 is 1148.7.
    ensures middle { tick_place (axis 0 103) 50 ≡ 659 }
    ensures near_the_end { tick_place (axis 0 103) 102 ≡ 1244 }
    ensures right_end { tick_place (axis 0 103) 103 ≡ 1256 }
    ensures past_the_end { tick_place (axis 0 103) 104 ≡ 1256 }
{}

/// From 0 to 99 there are ten tens, and from 1 to 100 too.
pub fn ten_marks()
    ensures from_0 { marks_of (axis 0 99)
        ≡ 0 ∷ 10 ∷ 20 ∷ 30 ∷ 40 ∷ 50 ∷ 60 ∷ 70 ∷ 80 ∷ 90 ∷ [] }
    ensures from_1 { marks_of (axis 1 100)
        ≡ 10 ∷ 20 ∷ 30 ∷ 40 ∷ 50 ∷ 60 ∷ 70 ∷ 80 ∷ 90 ∷ 100 ∷ [] }
{}

/// Nanoseconds since 1970, over 0.62 seconds: each tenth of a second is marked, and they count from a whole second.
pub fn nanoseconds_since_1970()
    ensures step { step_of (axis 1700000000480123456 1700000001103000000) ≡ 100000000 }
    ensures base { base_of (axis 1700000000480123456 1700000001103000000) ≡ 1700000000000000000 }
    ensures marks { marks_of (axis 1700000000480123456 1700000001103000000)
        ≡ 1700000000500000000 ∷ 1700000000600000000 ∷ 1700000000700000000 ∷ 1700000000800000000
        ∷ 1700000000900000000 ∷ 1700000001000000000 ∷ 1700000001100000000 ∷ [] }

    // 19,876,544 · 1160 / 622,876,544 is 37.02.
    ensures first_mark { tick_place (axis 1700000000480123456 1700000001103000000) 1700000000500000000 ≡ 133 }
{}

/// Ticks count from 0 while they are fewer than a thousand steps, here of 20.
pub fn ticks_before_and_from_a_thousand_steps()
    ensures before { base_of (axis 19840 19999) ≡ 0 }
    ensures from { base_of (axis 19841 20000) ≡ 18000 }
{}

/// One tick: it is marked, and stands at the left.
pub fn one_tick()
    ensures step { step_of (axis 7 7) ≡ 1 }
    ensures marks { marks_of (axis 7 7) ≡ 7 ∷ [] }
    ensures place { tick_place (axis 7 7) 7 ≡ 96 }
{}

/// All ticks of 64 bits.
pub fn all_ticks()
    ensures step { step_of (axis 0 (2 ^ 64 - 1)) ≡ 2000000000000000000 }
    ensures base { base_of (axis 0 (2 ^ 64 - 1)) ≡ 0 }
    ensures right_end { tick_place (axis 0 (2 ^ 64 - 1)) (2 ^ 64 - 1) ≡ 1256 }
{}

/// Numbers in groups.
pub fn numbers_in_groups()
    ensures zero { grouped 0 ≡ codes "0" }
    ensures one_group { grouped 999 ≡ codes "999" }
    ensures two_groups { grouped 1000 ≡ codes "1 000" }
    ensures three_groups { grouped 129856793 ≡ codes "129 856 793" }
    ensures greatest { grouped (2 ^ 64 - 1) ≡ codes "18 446 744 073 709 551 615" }
{}
