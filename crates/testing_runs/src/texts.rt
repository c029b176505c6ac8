//! Tasks that several tests use.

/// A step moves along a road, at cost 1.
pub const ROAD_DOMAIN: &str = "(define (domain road)
 (:requirements :typing)
 (:types loc)
 (:predicates (at ?x - loc) (road ?x ?y - loc))
 (:action go :parameters (?x ?y - loc)
  :precondition (and (at ?x) (road ?x ?y))
  :effect (and (not (at ?x)) (at ?y))))
";

/// From a over b to c.
pub const ROAD_PROBLEM: &str = "(define (problem r1) (:domain road)
 (:objects a b c - loc)
 (:init (at a) (road a b) (road b c))
 (:goal (at c)))
";

/// A road from each of two locations to the third, with a goal that no road reaches.
pub const ROAD_PROBLEM_WITHOUT_WAY: &str = "(define (problem r1) (:domain road)
 (:objects a b c - loc)
 (:init (at a) (road a b) (road c b))
 (:goal (at c)))
";

/// `ROAD_PROBLEM` as Fast Downward's translator writes it, in 45 lines: one variable, whose values are the locations.
pub const ROAD_SAS: &str = "begin_version\n3\nend_version\nbegin_metric\n0\nend_metric\n1\n\
begin_variable\nvar0\n-1\n3\nAtom at(a)\nAtom at(b)\nAtom at(c)\nend_variable\n\
1\nbegin_mutex_group\n3\n0 0\n0 1\n0 2\nend_mutex_group\nbegin_state\n0\nend_state\n\
begin_goal\n1\n0 2\nend_goal\n2\nbegin_operator\ngo a b\n0\n1\n0 0 0 1\n1\nend_operator\n\
begin_operator\ngo b c\n0\n1\n0 0 1 2\n1\nend_operator\n0\n";

/// Every valid plan of `ROAD_PROBLEM` costs at least 2: a search that closed a and b, without a heuristic.
pub const ROAD_PLANNING_CERTIFICATE: &str =
    "optplan-cert 1\npddl\nbound 2\natoms 5\nat a\nat b\nat c\nroad a b\nroad b c\n\
vars 1\n0 3 0 1 2\ncolumns 0\nclosed 2\n0 0\n1 1\nend\n";

/// Every plan of `ROAD_SAS` costs at least 2: a search that closed a and b, without a heuristic.
pub const ROAD_CERTIFICATE: &str =
    "optplan-cert 1\nsas\nbound 2\ncolumns 0\nclosed 2\n0 0\n1 1\nend\n";
