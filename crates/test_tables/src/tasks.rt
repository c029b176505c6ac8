//! Finite-domain tasks, as texts with `|` instead of line feeds.

/// Two balls and a gripper. Variables: the gripper's room, the position of each ball (in p, in q, held), and whether a
/// hand is full.
pub(crate) const GRIPPER: &str =
    "begin_version|3|end_version|begin_metric|0|end_metric|4|begin_variable|var0|-1|2|v0|v1|\
end_variable|begin_variable|var1|-1|3|v0|v1|v2|end_variable|begin_variable|var2|-1|3|v0|v1|v2|\
end_variable|begin_variable|var3|-1|2|v0|v1|end_variable|0|begin_state|0|0|0|0|end_state|\
begin_goal|2|1 1|2 1|end_goal|10|begin_operator|o|0|1|0 0 0 1|1|end_operator|begin_operator|o|0|\
1|0 0 1 0|1|end_operator|begin_operator|o|1|0 0|2|0 1 0 2|0 3 0 1|1|end_operator|begin_operator|\
o|1|0 1|2|0 1 1 2|0 3 0 1|1|end_operator|begin_operator|o|1|0 0|2|0 2 0 2|0 3 0 1|1|\
end_operator|begin_operator|o|1|0 1|2|0 2 1 2|0 3 0 1|1|end_operator|begin_operator|o|1|0 0|2|\
0 1 2 0|0 3 -1 0|1|end_operator|begin_operator|o|1|0 1|2|0 1 2 1|0 3 -1 0|1|end_operator|\
begin_operator|o|1|0 0|2|0 2 2 0|0 3 -1 0|1|end_operator|begin_operator|o|1|0 1|2|0 2 2 1|\
0 3 -1 0|1|end_operator|0";

/// A chain of four values, at costs of 2, 3 and 4.
pub(crate) const CHAIN: &str =
    "begin_version|3|end_version|begin_metric|1|end_metric|1|begin_variable|var0|-1|4|v0|v1|v2|v3|\
end_variable|0|begin_state|0|end_state|begin_goal|1|0 3|end_goal|3|begin_operator|o|0|1|0 0 0 1|\
2|end_operator|begin_operator|o|0|1|0 0 1 2|3|end_operator|begin_operator|o|0|1|0 0 2 3|4|\
end_operator|0";

/// The same without the metric, so that each operator costs 1.
pub(crate) const UNIT_CHAIN: &str =
    "begin_version|3|end_version|begin_metric|0|end_metric|1|begin_variable|var0|-1|4|v0|v1|v2|v3|\
end_variable|0|begin_state|0|end_state|begin_goal|1|0 3|end_goal|3|begin_operator|o|0|1|0 0 0 1|\
2|end_operator|begin_operator|o|0|1|0 0 1 2|3|end_operator|begin_operator|o|0|1|0 0 2 3|4|\
end_operator|0";

/// An operator at cost 0, one at cost 5, and one back at cost 0.
pub(crate) const FREE_STEPS: &str =
    "begin_version|3|end_version|begin_metric|1|end_metric|1|begin_variable|var0|-1|3|v0|v1|v2|\
end_variable|0|begin_state|0|end_state|begin_goal|1|0 2|end_goal|3|begin_operator|o|0|1|0 0 0 1|\
0|end_operator|begin_operator|o|0|1|0 0 1 2|5|end_operator|begin_operator|o|0|1|0 0 2 0|0|\
end_operator|0";

/// A goal that no operator reaches.
pub(crate) const CUT_OFF: &str =
    "begin_version|3|end_version|begin_metric|1|end_metric|1|begin_variable|var0|-1|3|v0|v1|v2|\
end_variable|0|begin_state|0|end_state|begin_goal|1|0 2|end_goal|1|begin_operator|o|0|1|0 0 0 1|\
1|end_operator|0";

/// Two variables, each with an operator of its own.
pub(crate) const TWO_GOALS: &str =
    "begin_version|3|end_version|begin_metric|1|end_metric|2|begin_variable|var0|-1|2|v0|v1|\
end_variable|begin_variable|var1|-1|2|v0|v1|end_variable|0|begin_state|0|0|end_state|begin_goal|\
2|0 1|1 1|end_goal|2|begin_operator|o|0|1|0 0 0 1|3|end_operator|begin_operator|o|0|1|0 1 0 1|4|\
end_operator|0";

/// Two variables that one operator sets.
pub(crate) const ONE_FOR_BOTH: &str =
    "begin_version|3|end_version|begin_metric|1|end_metric|2|begin_variable|var0|-1|2|v0|v1|\
end_variable|begin_variable|var1|-1|2|v0|v1|end_variable|0|begin_state|0|0|end_state|begin_goal|\
2|0 1|1 1|end_goal|1|begin_operator|o|0|2|0 0 0 1|0 1 0 1|5|end_operator|0";

/// An operator of high cost on the first variable, and one of low cost on both.
pub(crate) const DEAR_AND_CHEAP: &str =
    "begin_version|3|end_version|begin_metric|1|end_metric|2|begin_variable|var0|-1|2|v0|v1|\
end_variable|begin_variable|var1|-1|2|v0|v1|end_variable|0|begin_state|0|0|end_state|begin_goal|\
2|0 1|1 1|end_goal|2|begin_operator|o|0|1|0 0 0 1|5|end_operator|begin_operator|o|0|2|0 0 0 1|\
0 1 0 1|2|end_operator|0";

/// A gate that has to be open before the second variable can move.
pub(crate) const GATE: &str =
    "begin_version|3|end_version|begin_metric|1|end_metric|2|begin_variable|var0|-1|2|v0|v1|\
end_variable|begin_variable|var1|-1|3|v0|v1|v2|end_variable|0|begin_state|0|0|end_state|\
begin_goal|1|1 2|end_goal|3|begin_operator|o|0|1|0 0 0 1|1|end_operator|begin_operator|o|1|0 1|\
1|0 1 0 1|10|end_operator|begin_operator|o|0|1|0 1 1 2|100|end_operator|0";

/// An operator to the goal that applies to any value.
pub(crate) const FROM_ANYWHERE: &str =
    "begin_version|3|end_version|begin_metric|1|end_metric|1|begin_variable|var0|-1|3|v0|v1|v2|\
end_variable|0|begin_state|0|end_state|begin_goal|1|0 2|end_goal|1|begin_operator|o|0|1|\
0 0 -1 2|4|end_operator|0";

/// A variable with one value, which is the goal.
pub(crate) const ONE_VALUE: &str =
    "begin_version|3|end_version|begin_metric|1|end_metric|2|begin_variable|var0|-1|1|v0|\
end_variable|begin_variable|var1|-1|2|v0|v1|end_variable|0|begin_state|0|0|end_state|begin_goal|\
1|0 0|end_goal|1|begin_operator|o|0|1|0 1 0 1|1|end_operator|0";

/// Roads from the first town to the second at 1, from there to the third, the goal, at 4, and directly to it at 8.
pub(crate) const ROADS: &str =
    "begin_version|3|end_version|begin_metric|1|end_metric|1|begin_variable|var0|-1|3|v0|v1|v2|\
end_variable|0|begin_state|0|end_state|begin_goal|1|0 2|end_goal|3|begin_operator|o|0|1|\
0 0 0 1|1|end_operator|begin_operator|o|0|1|0 0 0 2|8|end_operator|begin_operator|o|0|1|\
0 0 1 2|4|end_operator|0";

/// Five values, of which the fourth is the goal.
pub(crate) const LATE_GOAL: &str =
    "begin_version|3|end_version|begin_metric|1|end_metric|1|begin_variable|var0|-1|5|v0|v1|v2|v3|\
v4|end_variable|0|begin_state|0|end_state|begin_goal|1|0 3|end_goal|1|begin_operator|o|0|1|\
0 0 0 3|1|end_operator|0";

/// Five values, of which the second is the goal.
pub(crate) const EARLY_GOAL: &str =
    "begin_version|3|end_version|begin_metric|1|end_metric|1|begin_variable|var0|-1|5|v0|v1|v2|v3|\
v4|end_variable|0|begin_state|0|end_state|begin_goal|1|0 1|end_goal|1|begin_operator|o|0|1|\
0 0 0 1|1|end_operator|0";
