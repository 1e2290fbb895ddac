//! What lists of inputs come to, as texts, worked by hand. Each function is empty, and its contract is the examples.

ghost use Rattle.std.specs.Prelude.{◌≡◌, [], codes};
ghost use Rattle.loop_data.specs.declared.tower.Kind.TheVariants as kind;
ghost use Rattle.loop_results.specs.ResultTexts.{result_text};
ghost use Rattle.worked_examples.specs.Inputs.{four_numbers, four_at_places, unsigned_at_places};
ghost use Rattle.worked_examples.specs.Inputs.{largest_twice, three_texts, texts_at_places, quoted_and_empty};
ghost use Rattle.worked_examples.specs.Inputs.{false_and_true, false_twice, true_twice, three_of_nothing};
ghost use Rattle.worked_examples.specs.Inputs.{three_pairs, pair_in_pair, sales, three_keyed};
ghost use Rattle.worked_examples.specs.Inputs.{two_keyed_pairs, three_keyed_twice};

/// No input: what a tower begins with, or `nothing`.
pub fn results_of_no_input()
    ensures sum { result_text kind.Sum [] ≡ codes "0" }
    ensures product { result_text kind.Prod [] ≡ codes "1" }
    ensures count { result_text kind.Count [] ≡ codes "0" }
    ensures least { result_text kind.Least [] ≡ codes "nothing" }
    ensures greatest { result_text kind.Greatest [] ≡ codes "nothing" }
    ensures least_at { result_text kind.LeastAt [] ≡ codes "nothing" }
    ensures greatest_at { result_text kind.GreatestAt [] ≡ codes "nothing" }
    ensures first { result_text kind.First [] ≡ codes "nothing" }
    ensures last { result_text kind.Last [] ≡ codes "nothing" }
    ensures any { result_text kind.Any [] ≡ codes "false" }
    ensures all { result_text kind.All [] ≡ codes "true" }
    ensures listed { result_text kind.Listed [] ≡ codes "[]" }
    ensures grouped { result_text (kind.Grouped kind.Sum) [] ≡ codes "{}" }
    ensures both { result_text (kind.Both kind.Sum kind.Least) [] ≡ codes "(0, nothing)" }
{}

/// The inputs 3, -9, 4, -9, and of the towers with places these, or 3, 9, 4, 9, at the places 1 to 4.
pub fn results_of_four_numbers()
    ensures sum { result_text kind.Sum four_numbers ≡ codes "-11" }
    ensures product { result_text kind.Prod four_numbers ≡ codes "972" }
    ensures least { result_text kind.Least four_numbers ≡ codes "-9" }
    ensures greatest { result_text kind.Greatest four_numbers ≡ codes "4" }
    ensures least_at { result_text kind.LeastAt four_at_places ≡ codes "-9 at 2" }
    ensures greatest_at { result_text kind.GreatestAt unsigned_at_places ≡ codes "9 at 2" }
    ensures first { result_text kind.First four_numbers ≡ codes "3" }
    ensures last { result_text kind.Last four_numbers ≡ codes "-9" }
    ensures listed { result_text kind.Listed four_numbers ≡ codes "[3, -9, 4, -9]" }
{}

/// The largest number of 64 bits twice: the sum is exact, the product is 1 more than a multiple of 2^64.
pub fn results_past_64_bits()
    ensures sum { result_text kind.Sum largest_twice ≡ codes "18446744073709551614" }
    ensures product { result_text kind.Prod largest_twice ≡ codes "1" }
{}

/// Texts are ordered by their bytes and written without quotes. Of equals the least place counts, in whatever order.
pub fn results_of_texts()
    ensures least { result_text kind.Least three_texts ≡ codes "B" }
    ensures greatest { result_text kind.Greatest three_texts ≡ codes "ba" }
    ensures greatest_at { result_text kind.GreatestAt texts_at_places ≡ codes "b at 6" }
    ensures listed { result_text kind.Listed quoted_and_empty ≡ codes "[a \"b\", ]" }
{}

/// Whether any and whether all are true; how many inputs there are.
pub fn results_of_truth_values()
    ensures any { result_text kind.Any false_and_true ≡ codes "true" }
    ensures none { result_text kind.Any false_twice ≡ codes "false" }
    ensures all { result_text kind.All true_twice ≡ codes "true" }
    ensures not_all { result_text kind.All false_and_true ≡ codes "false" }
    ensures count { result_text kind.Count three_of_nothing ≡ codes "3" }
{}

/// Tuples in lists, and tuples in tuples.
pub fn results_of_tuples()
    ensures pairs { result_text kind.Listed three_pairs ≡ codes "[(1, 1), (2, 1), (2, 2)]" }
    ensures nested { result_text kind.First pair_in_pair ≡ codes "((a, true), 1)" }
{}

/// Groups by rising bytes of their keys, each with the result of its own inputs.
pub fn results_of_groups()
    ensures sums { result_text (kind.Grouped kind.Sum) sales ≡ codes "{B: 1, b: 5, north: 17}" }
    ensures lists { result_text (kind.Grouped kind.Listed) three_keyed
        ≡ codes "{a: [5], b: [2, 1]}" }
    ensures both { result_text (kind.Grouped (kind.Both kind.Sum kind.Count)) two_keyed_pairs
        ≡ codes "{r0: (553, 1), r7: (975, 1)}" }
    ensures nested { result_text (kind.Grouped (kind.Grouped kind.Sum)) three_keyed_twice
        ≡ codes "{a: {x: 5}, b: {x: 1, y: 2}}" }
{}
