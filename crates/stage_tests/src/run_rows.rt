//! Requests over the sample's data and what they give. The expected rows come from the rules and from a program that was
//! written apart from this one.

/// Requests and their rows, each with the place of its entity, or `-` where it has none, its other prefixes with theirs, and its
/// columns.
pub(crate) const ROW_WISE: &str = r"
Sales?$apply=identity => 0 | 1 | 2 | 3 | 4 | 5
// Filters keep what is true, and neither what is false nor what is unknown.
Sales?$apply=filter(Amount gt 5) => 0 | 1 | 2
Sales?$apply=filter(not (Amount gt 5)) => 3 | 4 | 5
Sales?$apply=filter(Amount add 1 eq 2.00) => 4
Sales?$apply=filter(OrgID eq null) => 4
Sales?$apply=filter(contains(OrgID,'s')) => 0 | 1 | 3
Sales?$apply=filter(not contains(OrgID,'s')) => 2 | 5
Sales?$apply=filter(Customer/Country eq 'US') => 0 | 1 | 5
Sales?$apply=filter(Amount mul 100000000000000000 gt 0) => Range
Sales?$apply=filter(ID eq 4)/filter(Amount mul 100000000000000000 gt 0) =>
// Parts of lists.
Sales?$apply=skip(4) => 4 | 5
Sales?$apply=skip(0)/top(1) => 0
Sales?$apply=top(0) =>
Sales?$apply=skip(2)/top(3)/skip(1) => 3 | 4
Sales?$apply=skip(6)/top(9223372036854775807) =>
Sales?$apply=skip(9223372036854775807) =>
Sales?$apply=skip(1)/filter(Amount gt 1)/top(2)/identity => 1 | 2
Sales?$apply=filter(Amount gt 1)/skip(1)/filter(ID ne 3)/top(3)/orderby(ID desc)/skip(1) => 1
// Computations are never refused.
Sales?$apply=top(2)/compute(Amount mul 2 as D,ID sub 1 as P) => 0; D: 20.00; P: 0 | 1; D: 11.00; P: 1
Sales?$apply=compute(Amount mul 100000000000000000 as X) => 0; X: Beyond | 1; X: Beyond | 2; X: Beyond | 3; X: null | 4; X: Beyond | 5; X: Beyond
Sales?$apply=compute(Amount mul 100000000000000000 as X)/filter(ID eq 99) =>
Sales?$apply=compute(Amount mul 100000000000000000 as X)/filter(X gt 0) => Range
Sales?$apply=filter(ID eq 4)/compute(ID as A)/compute(A add 1 as B) => 3; A: 4; B: 5
// Orders are stable; null comes first where they ascend and last where they descend.
Sales?$apply=orderby(Amount desc)/top(1) => 0
Sales?$apply=orderby(Amount) => 3 | 4 | 5 | 1 | 2 | 0
Sales?$apply=orderby(Amount desc) => 0 | 2 | 1 | 5 | 4 | 3
Sales?$apply=orderby(CustomerID) => 0 | 1 | 5 | 2 | 4 | 3
Sales?$apply=orderby(CustomerID desc) => 3 | 2 | 4 | 0 | 1 | 5
Sales?$apply=orderby(CustomerID,Amount desc) => 0 | 1 | 5 | 2 | 4 | 3
Sales?$apply=orderby(CustomerID,Amount) => 5 | 1 | 0 | 4 | 2 | 3
Sales?$apply=orderby(Customer/Since,ID desc) => 3 | 5 | 1 | 0 | 4 | 2
Sales?$apply=orderby(Amount desc,ID)/skip(1)/top(2) => 2 | 1
Sales?$apply=orderby(Amount mul 100000000000000000) => Range
Sales?$apply=orderby(ID,Amount mul 100000000000000000) => Range
Sales?$apply=filter(ID eq 99)/orderby(Amount mul 100000000000000000) =>
// Aggregates skip nulls, and have one row over no rows.
Sales?$apply=aggregate(Amount with sum as Total) => -; Total: 26.00
Sales?$apply=filter(ID eq 99)/aggregate(Amount with sum as T,$count as N) => -; T: null; N: 0
Sales?$apply=aggregate(CustomerID with countdistinct as D,Amount with min as L,Amount with max as M) => -; D: 3; L: 1.00; M: 10.00
/Sales?%24apply=filter(year(Customer/Since)%20eq%202020)/aggregate(%24count%20as%20N) => -; N: 2
Sales?$apply=orderby(Amount)/top(1)/aggregate(ID with max as M) => -; M: 4
Sales?$apply=filter(Amount gt 1)/skip(1)/filter(ID ne 3)/top(3)/aggregate(ID with sum as S,$count as N) => -; S: 8; N: 2
Sales?$apply=top(3)/filter(Amount mul 100000000000000000 gt 0)/aggregate($count as N) => Range
Sales?$apply=top(0)/filter(Amount mul 100000000000000000 gt 0)/aggregate($count as N) => -; N: 0
Sales?$apply=filter(ID eq 4)/aggregate(Amount with max as M,Amount with min as L,Amount with sum as T,Amount with countdistinct as D,$count as N) => -; M: null; L: null; T: null; D: 0; N: 1
Sales?$apply=aggregate(Amount with countdistinct as A,OrgID with countdistinct as O,Customer/Since with min as S,Customer/Since with max as U,OrgID with max as X) => -; A: 5; O: 4; S: 2019-05-01; U: 2020-02-29; X: West
Sales?$apply=aggregate(ID mul 3000000000000000000 with sum as T) => -; T: Beyond
Sales?$apply=filter(ID le 3)/aggregate((ID sub 2) mul 9223372036854775807 with sum as T,ID mul 3000000000000000000 with max as M) => -; T: 0; M: 9000000000000000000
Sales?$apply=aggregate($count as N)/compute(N mul N as S)/filter(S gt 35) => -; N: 6; S: 36
Orgs?$apply=aggregate(ParentID with countdistinct as P) => -; P: 2
";

/// Groupings and custom aggregates.
pub(crate) const GROUPED: &str = r"
// Groups stand in the order of their first rows, and null is a key like any other.
Sales?$apply=groupby((OrgID)) => -; OrgID: West | -; OrgID: East | -; OrgID: EMEA | -; OrgID: null | -; OrgID: US
Sales?$apply=groupby((CustomerID),aggregate(Amount with sum as T,$count as N)) => -; T: 17.75; N: 3; CustomerID: C1 | -; T: 8.25; N: 2; CustomerID: C2 | -; T: null; N: 1; CustomerID: C3
Sales?$apply=groupby((Customer/Country,OrgID),aggregate(Amount with max as M)) => -; M: 10.00; Customer/Country: US; OrgID: West | -; M: 5.50; Customer/Country: US; OrgID: East | -; M: 7.25; Customer/Country: NL; OrgID: EMEA | -; M: null; Customer/Country: FR; OrgID: West | -; M: 1.00; Customer/Country: NL; OrgID: null | -; M: 2.25; Customer/Country: US; OrgID: US
Sales?$apply=groupby((OrgID))/skip(3) => -; OrgID: null | -; OrgID: US
Sales?$apply=groupby((CustomerID),identity) => 0; CustomerID: C1 | 1; CustomerID: C1 | 5; CustomerID: C1 | 2; CustomerID: C2 | 4; CustomerID: C2 | 3; CustomerID: C3
Sales?$apply=groupby((CustomerID),orderby(Amount desc)/top(1)) => 0; CustomerID: C1 | 2; CustomerID: C2 | 3; CustomerID: C3
Sales?$apply=groupby((CustomerID),filter(Amount gt 6)/compute(Amount mul 2 as D)) => 0; D: 20.00; CustomerID: C1 | 2; D: 14.50; CustomerID: C2
Sales?$apply=filter(ID eq 99)/groupby((CustomerID),aggregate($count as N)) =>
// Levels come one after the other, the finest first; the last of `$all` has no group over no rows.
Sales?$apply=groupby((rollup(Customer/Country,CustomerID)),aggregate($count as N)) => -; N: 3; Customer/Country: US; CustomerID: C1 | -; N: 2; Customer/Country: NL; CustomerID: C2 | -; N: 1; Customer/Country: FR; CustomerID: C3 | -; N: 3; Customer/Country: US | -; N: 2; Customer/Country: NL | -; N: 1; Customer/Country: FR
Sales?$apply=groupby((rollup($all,OrgID)),aggregate(Amount with sum as T)) => -; T: 10.00; OrgID: West | -; T: 5.50; OrgID: East | -; T: 7.25; OrgID: EMEA | -; T: 1.00; OrgID: null | -; T: 2.25; OrgID: US | -; T: 26.00
Sales?$apply=filter(ID eq 99)/groupby((rollup($all,OrgID)),aggregate($count as N)) =>
Sales?$apply=groupby((OrgID,rollup($all,Customer/Country,CustomerID)),aggregate($count as N)) => -; N: 1; OrgID: West; Customer/Country: US; CustomerID: C1 | -; N: 1; OrgID: East; Customer/Country: US; CustomerID: C1 | -; N: 1; OrgID: EMEA; Customer/Country: NL; CustomerID: C2 | -; N: 1; OrgID: West; Customer/Country: FR; CustomerID: C3 | -; N: 1; OrgID: null; Customer/Country: NL; CustomerID: C2 | -; N: 1; OrgID: US; Customer/Country: US; CustomerID: C1 | -; N: 1; OrgID: West; Customer/Country: US | -; N: 1; OrgID: East; Customer/Country: US | -; N: 1; OrgID: EMEA; Customer/Country: NL | -; N: 1; OrgID: West; Customer/Country: FR | -; N: 1; OrgID: null; Customer/Country: NL | -; N: 1; OrgID: US; Customer/Country: US | -; N: 2; OrgID: West | -; N: 1; OrgID: East | -; N: 1; OrgID: EMEA | -; N: 1; OrgID: null | -; N: 1; OrgID: US
Sales?$apply=groupby((rollup(Customer/Country,CustomerID))) => -; Customer/Country: US; CustomerID: C1 | -; Customer/Country: NL; CustomerID: C2 | -; Customer/Country: FR; CustomerID: C3 | -; Customer/Country: US | -; Customer/Country: NL | -; Customer/Country: FR
Sales?$apply=groupby((OrgID,rollup($all,CustomerID))) => -; OrgID: West; CustomerID: C1 | -; OrgID: East; CustomerID: C1 | -; OrgID: EMEA; CustomerID: C2 | -; OrgID: West; CustomerID: C3 | -; OrgID: null; CustomerID: C2 | -; OrgID: US; CustomerID: C1 | -; OrgID: West | -; OrgID: East | -; OrgID: EMEA | -; OrgID: null | -; OrgID: US
// Groupings within groups.
Sales?$apply=groupby((CustomerID),groupby((OrgID),aggregate(Amount with min as L))) => -; L: 10.00; OrgID: West; CustomerID: C1 | -; L: 5.50; OrgID: East; CustomerID: C1 | -; L: 2.25; OrgID: US; CustomerID: C1 | -; L: 7.25; OrgID: EMEA; CustomerID: C2 | -; L: 1.00; OrgID: null; CustomerID: C2 | -; L: null; OrgID: West; CustomerID: C3
Sales?$apply=groupby((Customer/Country),groupby((rollup($all,OrgID)),aggregate($count as N))/filter(N gt 1)) => -; N: 3; Customer/Country: US | -; N: 2; Customer/Country: NL
// A key past its range, and an inner pipeline that is refused on a group.
Sales?$apply=compute(Amount mul 100000000000000000 as X)/groupby((X)) => Range
Sales?$apply=filter(ID eq 4)/compute(Amount mul 100000000000000000 as X)/groupby((X)) => -; X: null
Sales?$apply=groupby((CustomerID),filter(Amount mul 100000000000000000 gt 0)) => Range
Sales?$apply=compute(Amount mul 100000000000000000 as X)/groupby((rollup($all,X)),aggregate($count as N)) => Range
// Custom aggregates, by the groups of their definition.
Sales?$apply=aggregate(Best) => -; Best: 17.75
Sales?$apply=aggregate($count as N,Best as B) => -; N: 6; B: 17.75
Sales?$apply=filter(ID eq 99)/aggregate(Best) => -; Best: null
Sales?$apply=groupby((Customer/Country),aggregate(Best)) => -; Best: 17.75; Customer/Country: US | -; Best: 8.25; Customer/Country: NL | -; Best: null; Customer/Country: FR
Sales?$apply=groupby((rollup($all,OrgID)),aggregate(Best as B,Amount with sum as T)) => -; B: 10.00; T: 10.00; OrgID: West | -; B: 5.50; T: 5.50; OrgID: East | -; B: 7.25; T: 7.25; OrgID: EMEA | -; B: 1.00; T: 1.00; OrgID: null | -; B: 2.25; T: 2.25; OrgID: US | -; B: 17.75; T: 26.00
Sales?$apply=top(3)/aggregate(Best) => -; Best: 15.50
Sales?$apply=compute(ID as A)/groupby((A),aggregate(Best))/top(2) => -; Best: 10.00; A: 1 | -; Best: 5.50; A: 2
Sales?$apply=groupby((CustomerID),skip(1)/aggregate(Best)) => -; Best: 7.75; CustomerID: C1 | -; Best: 1.00; CustomerID: C2 | -; Best: null; CustomerID: C3
Customers?$apply=groupby((Country),aggregate(Since with max as M)) => -; M: 2019-05-01; Country: US | -; M: 2020-02-29; Country: NL | -; M: 2020-12-31; Country: FR
Orgs?$apply=groupby((ParentID),aggregate($count as N)) => -; N: 2; ParentID: null | -; N: 2; ParentID: Corp | -; N: 2; ParentID: US
";

/// Selections from the top and the bottom.
pub(crate) const TAKEN: &str = r"
// The earlier of two that tie comes first, null last in both directions; what is taken stands in its order.
Sales?$apply=topcount(2,Amount) => 0 | 2
Sales?$apply=bottomcount(2,Amount) => 4 | 5
Sales?$apply=topcount(0,Amount) =>
Sales?$apply=topcount(5,Amount) => 0 | 1 | 2 | 4 | 5
Sales?$apply=topcount(9223372036854775807,Amount) => 0 | 1 | 2 | 3 | 4 | 5
Sales?$apply=bottomcount(5,Amount) => 0 | 1 | 2 | 4 | 5
Sales?$apply=topcount(1,CustomerID) => 3
Sales?$apply=topcount(3,Customer/Country) => 0 | 1 | 5
Sales?$apply=bottomcount(1,Customer/Country) => 3
Sales?$apply=bottomcount(2,Customer/Since) => 0 | 1
Sales?$apply=topcount(1,Amount mul 100000000000000000) => Range
Sales?$apply=filter(ID eq 4)/topcount(1,Amount mul 100000000000000000) => 3
Sales?$apply=filter(ID eq 99)/topcount(2,Amount) =>
// The fewest whose sum is enough, or all.
Sales?$apply=topsum(15,Amount) => 0 | 2
Sales?$apply=topsum(10,Amount) => 0
Sales?$apply=topsum(10.00,Amount) => 0
Sales?$apply=topsum(10.000000001,Amount) => 0 | 2
Sales?$apply=topsum(17.25,Amount) => 0 | 2
Sales?$apply=topsum(0,Amount) =>
Sales?$apply=topsum(100,Amount) => 0 | 1 | 2 | 3 | 4 | 5
Sales?$apply=bottomsum(3,Amount) => 4 | 5
Sales?$apply=bottomsum(1,Amount) => 4
Sales?$apply=bottomsum(1.0000001,Amount) => 4 | 5
Sales?$apply=topsum(11,ID) => 4 | 5
Sales?$apply=topsum(10.5,ID) => 4 | 5
Sales?$apply=bottomsum(6,ID) => 0 | 1 | 2
Sales?$apply=topsum(1,Amount sub 20) => 0 | 1 | 2 | 3 | 4 | 5
Sales?$apply=bottomsum(0,Amount sub 20) =>
Sales?$apply=filter(ID eq 4)/topsum(1,Amount) => 3
// A percentage of the exact sum.
Sales?$apply=toppercent(50,Amount) => 0 | 2
Sales?$apply=bottompercent(10,Amount) => 4 | 5
Sales?$apply=toppercent(0,Amount) =>
Sales?$apply=toppercent(100,Amount) => 0 | 1 | 2 | 4 | 5
Sales?$apply=toppercent(39,Amount) => 0 | 2
Sales?$apply=toppercent(38,Amount) => 0
Sales?$apply=bottompercent(1,ID) => 0
Sales?$apply=bottompercent(5,ID) => 0 | 1
Sales?$apply=toppercent(29,ID) => 4 | 5
Sales?$apply=toppercent(28,ID) => 5
Sales?$apply=toppercent(50,Amount sub 20) =>
Sales?$apply=bottompercent(50,Amount sub 20) =>
Sales?$apply=filter(ID eq 4)/toppercent(100,Amount) =>
Sales?$apply=top(2)/toppercent(65,(ID mul 9223372036854775806) sub (ID mul 9223372036854775805)) => Range
Sales?$apply=filter(ID le 2)/toppercent(99,ID mul 4611686018427387903) => 0 | 1
Sales?$apply=filter(ID le 2)/topsum(9223372036854775807,ID mul 4611686018427387903) => 0 | 1
Sales?$apply=groupby((CustomerID),topcount(1,Amount)) => 0; CustomerID: C1 | 2; CustomerID: C2 | 3; CustomerID: C3
Sales?$apply=groupby((CustomerID),bottomsum(3,Amount)/compute(Amount mul 2 as D)) => 1; D: 11.00; CustomerID: C1 | 5; D: 4.50; CustomerID: C1 | 2; D: 14.50; CustomerID: C2 | 4; D: 2.00; CustomerID: C2 | 3; D: null; CustomerID: C3
";

/// Joins and concatenations.
pub(crate) const JOINED: &str = r"
// Each row beside each of its related rows, in both orders; the alias stands before what they have.
Customers?$apply=join(Sales as S) => 0; S@0 | 0; S@1 | 0; S@5 | 1; S@2 | 1; S@4 | 2; S@3
Customers?$apply=outerjoin(Sales as S) => 0; S@0 | 0; S@1 | 0; S@5 | 1; S@2 | 1; S@4 | 2; S@3 | 3; S@-
Customers?$apply=join(Sales as S,filter(Amount gt 5)) => 0; S@0 | 0; S@1 | 1; S@2
Customers?$apply=outerjoin(Sales as S,filter(Amount gt 5)) => 0; S@0 | 0; S@1 | 1; S@2 | 2; S@- | 3; S@-
Customers?$apply=filter(ID eq 'C4')/join(Sales as S) =>
Customers?$apply=filter(ID eq 'C4')/outerjoin(Sales as S) => 3; S@-
Customers?$apply=join(Sales as S,compute(Amount mul 2 as D)/top(1)) => 0; S@0; S/D: 20.00 | 1; S@2; S/D: 14.50 | 2; S@3; S/D: null
Customers?$apply=outerjoin(Sales as S,aggregate(Amount with sum as T,$count as N)) => 0; S/T: 17.75; S/N: 3 | 1; S/T: 8.25; S/N: 2 | 2; S/T: null; S/N: 1 | 3; S/T: null; S/N: 0
Customers?$apply=join(Sales as S,groupby((OrgID),aggregate($count as N))) => 0; S/N: 1; S/OrgID: West | 0; S/N: 1; S/OrgID: East | 0; S/N: 1; S/OrgID: US | 1; S/N: 1; S/OrgID: EMEA | 1; S/N: 1; S/OrgID: null | 2; S/N: 1; S/OrgID: West
Customers?$apply=join(Sales as S)/groupby((Country),aggregate(S/Amount with sum as T))/orderby(T desc)/top(1) => -; T: 17.75; Country: US
Customers?$apply=join(Sales as S)/filter(S/OrgID eq 'West') => 0; S@0 | 2; S@3
Customers?$apply=outerjoin(Sales as S)/filter(S/ID eq null) => 3; S@-
Customers?$apply=join(Sales as S)/outerjoin(Sales as R,top(1))/top(3) => 0; S@0; R@0 | 0; S@1; R@0 | 0; S@5; R@0
Customers?$apply=join(Sales as S,topcount(1,Amount))/compute(S/Amount add 1 as A) => 0; S@0; A: 11.00 | 1; S@2; A: 8.25 | 2; S@3; A: null
Customers?$apply=join(Sales as S,filter(Amount mul 100000000000000000 gt 0)) => Range
Customers?$apply=filter(ID eq 'C3')/join(Sales as S,filter(Amount mul 100000000000000000 gt 0)) =>
Customers?$apply=filter(ID eq 'C9')/join(Sales as S,filter(Amount mul 100000000000000000 gt 0)) =>
Customers?$apply=join(Sales as S,aggregate(Best)) => 0; S/Best: 17.75 | 1; S/Best: 8.25 | 2; S/Best: null | 3; S/Best: null
Customers?$apply=outerjoin(Sales as S)/aggregate(S/Amount with sum as T,$count as N) => -; T: 26.00; N: 7
// Each branch on the same rows, one after the other.
Sales?$apply=concat(identity,identity) => 0 | 1 | 2 | 3 | 4 | 5 | 0 | 1 | 2 | 3 | 4 | 5
Sales?$apply=concat(filter(ID eq 1),filter(ID eq 1))/groupby((ID),aggregate($count as N)) => -; N: 2; ID: 1
Sales?$apply=concat(top(1),aggregate(Amount with sum as T)) => 0 | -; T: 26.00
Sales?$apply=concat(filter(ID eq 2),skip(4),top(1)) => 1 | 4 | 5 | 0
Sales?$apply=concat(compute(1 as A),top(1)/compute(2 as A)) => 0; A: 1 | 1; A: 1 | 2; A: 1 | 3; A: 1 | 4; A: 1 | 5; A: 1 | 0; A: 2
Sales?$apply=concat(aggregate(Best),aggregate(Amount with max as Best)) => -; Best: 17.75 | -; Best: 10.00
Sales?$apply=concat(groupby((CustomerID),aggregate($count as N)),aggregate($count as N)) => -; N: 3; CustomerID: C1 | -; N: 2; CustomerID: C2 | -; N: 1; CustomerID: C3 | -; N: 6
Sales?$apply=concat(concat(top(1),skip(5)),filter(ID eq 3)) => 0 | 5 | 2
Sales?$apply=concat(identity,filter(Amount mul 100000000000000000 gt 0)) => Range
Sales?$apply=concat(filter(Amount mul 100000000000000000 gt 0),identity) => Range
Sales?$apply=filter(ID eq 99)/concat(identity,aggregate($count as N)) => -; N: 0
Sales?$apply=groupby((CustomerID),concat(aggregate($count as N),aggregate(Amount with sum as T))) => -; N: 3; CustomerID: C1 | -; T: 17.75; CustomerID: C1 | -; N: 2; CustomerID: C2 | -; T: 8.25; CustomerID: C2 | -; N: 1; CustomerID: C3 | -; T: null; CustomerID: C3
Sales?$apply=concat(top(1),skip(5))/aggregate(Best) => -; Best: 12.25
Sales?$apply=concat(identity,top(2))/topcount(3,Amount) => 0 | 2 | 0
Customers?$apply=concat(join(Sales as S,top(1)),outerjoin(Sales as S,filter(ID eq 3))) => 0; S@0 | 1; S@2 | 2; S@3 | 0; S@- | 1; S@2 | 2; S@- | 3; S@-
";

/// Climbs, traversals and recursive rollups.
pub(crate) const BY_NODES: &str = r"
// Climbs up: rows at nodes above those of the inner rows, each once and in their own order; a row without a node is none of them.
Sales?$apply=ancestors($root/Orgs,OrgTree,OrgID,identity) => 5
Sales?$apply=ancestors($root/Orgs,OrgTree,OrgID,filter(ID eq 1)) => 5
Sales?$apply=ancestors($root/Orgs,OrgTree,OrgID,filter(ID eq 1),1) => 5
Sales?$apply=ancestors($root/Orgs,OrgTree,OrgID,filter(ID eq 1),keep start) => 0 | 3 | 5
Sales?$apply=ancestors($root/Orgs,OrgTree,OrgID,filter(ID eq 6),1,keep start) => 5
Sales?$apply=ancestors($root/Orgs,OrgTree,OrgID,filter(ID eq 5),keep start) =>
Sales?$apply=ancestors($root/Orgs,OrgTree,OrgID,filter(ID eq 99),keep start) =>
Sales?$apply=ancestors($root/Orgs,OrgTree,Customer/Name,identity,keep start) =>
Orgs?$apply=ancestors($root/Orgs,OrgTree,ID,filter(ID eq 'West')) => 0 | 2
Orgs?$apply=ancestors($root/Orgs,OrgTree,ID,filter(ID eq 'West'),1) => 2
Orgs?$apply=ancestors($root/Orgs,OrgTree,ID,filter(ID eq 'West' or ID eq 'Lab'),2,keep start) => 0 | 2 | 3 | 5
Orgs?$apply=ancestors($root/Orgs,OrgTree,ParentID,filter(ID eq 'East')) => 1 | 2
// Climbs down.
Sales?$apply=descendants($root/Orgs,OrgTree,OrgID,filter(ID eq 6)) => 0 | 1 | 3
Sales?$apply=descendants($root/Orgs,OrgTree,OrgID,filter(ID eq 6 or ID eq 1),keep start) => 0 | 1 | 3 | 5
Sales?$apply=descendants($root/Orgs,OrgTree,OrgID,filter(ID eq 6 or ID eq 1),keep start)/aggregate($count as N) => -; N: 4
Orgs?$apply=descendants($root/Orgs,OrgTree,ID,filter(ID eq 'Corp')) => 1 | 2 | 3 | 4
Orgs?$apply=descendants($root/Orgs,OrgTree,ID,filter(ID eq 'Corp'),1) => 1 | 2
Orgs?$apply=descendants($root/Orgs,OrgTree,ID,filter(ID eq 'Corp'),2,keep start) => 0 | 1 | 2 | 3 | 4
Orgs?$apply=descendants($root/Orgs,OrgTree,ParentID,filter(ID eq 'EMEA'),1) => 3 | 4
Orgs?$apply=descendants($root/Orgs,OrgTree,ID,filter(ParentID eq null),keep start)/filter(ParentID ne null) => 1 | 2 | 3 | 4
// Inner pipelines that climb themselves, and climbs in groups, joins and branches.
Orgs?$apply=descendants($root/Orgs,OrgTree,ID,ancestors($root/Orgs,OrgTree,ID,filter(ID eq 'East'),1),1,keep start) => 2 | 3 | 4
Sales?$apply=ancestors($root/Orgs,OrgTree,OrgID,descendants($root/Orgs,OrgTree,OrgID,filter(ID eq 6)),1) => 5
Sales?$apply=descendants($root/Orgs,OrgTree,OrgID,topcount(1,Amount)/ancestors($root/Orgs,OrgTree,OrgID,identity,keep start),keep start) => 0 | 3
Sales?$apply=groupby((CustomerID),ancestors($root/Orgs,OrgTree,OrgID,filter(ID le 3))) => 5; CustomerID: C1
Customers?$apply=join(Sales as S,ancestors($root/Orgs,OrgTree,OrgID,identity)) => 0; S@5
Sales?$apply=concat(ancestors($root/Orgs,OrgTree,OrgID,filter(ID eq 1)),descendants($root/Orgs,OrgTree,OrgID,filter(ID eq 6))) => 5 | 0 | 1 | 3
Sales?$apply=concat(identity,top(1))/descendants($root/Orgs,OrgTree,OrgID,filter(ID eq 6),1) => 0 | 1 | 3 | 0
// An inner pipeline that is refused, and one that is run on no row.
Sales?$apply=ancestors($root/Orgs,OrgTree,OrgID,filter(Amount mul 100000000000000000 gt 0)) => Range
Sales?$apply=filter(ID eq 99)/ancestors($root/Orgs,OrgTree,OrgID,filter(Amount mul 100000000000000000 gt 0)) =>
// Traversals: rows by their nodes in the order of the walk, and those of one node in their own order.
Orgs?$apply=traverse($root/Orgs,OrgTree,ID,preorder) => 0 | 1 | 2 | 3 | 4 | 5
Orgs?$apply=traverse($root/Orgs,OrgTree,ID,postorder) => 1 | 3 | 4 | 2 | 0 | 5
Sales?$apply=traverse($root/Orgs,OrgTree,OrgID,preorder) => 2 | 5 | 0 | 3 | 1
Sales?$apply=traverse($root/Orgs,OrgTree,OrgID,postorder) => 2 | 0 | 3 | 1 | 5
Orgs?$apply=traverse($root/Orgs,OrgTree,ParentID,postorder) => 3 | 4 | 1 | 2
Orgs?$apply=traverse($root/Orgs,OrgTree,ID,preorder,ID) => 0 | 1 | 2 | 4 | 3 | 5
Orgs?$apply=traverse($root/Orgs,OrgTree,ID,preorder,ID desc) => 5 | 0 | 2 | 3 | 4 | 1
Orgs?$apply=traverse($root/Orgs,OrgTree,ID,postorder,ID desc) => 5 | 3 | 4 | 2 | 1 | 0
Orgs?$apply=traverse($root/Orgs,OrgTree,ID,preorder,ParentID desc) => 0 | 1 | 2 | 3 | 4 | 5
Orgs?$apply=traverse($root/Orgs,OrgTree,ID,postorder,ParentID,ID desc) => 5 | 3 | 4 | 2 | 1 | 0
Orgs?$apply=traverse($root/Orgs,OrgTree,ID,preorder,Superordinate/ParentID,ID) => 0 | 1 | 2 | 4 | 3 | 5
Orgs?$apply=orderby(ID)/traverse($root/Orgs,OrgTree,ParentID,preorder) => 1 | 2 | 4 | 3
Sales?$apply=filter(ID eq 99)/traverse($root/Orgs,OrgTree,OrgID,preorder) =>
Sales?$apply=orderby(ID desc)/traverse($root/Orgs,OrgTree,OrgID,preorder,ID)/top(3) => 2 | 5 | 1
// Recursive rollups: a group for each node that has rows at it or below it.
Sales?$apply=groupby((rolluprecursive($root/Orgs,OrgTree,OrgID))) => -; OrgID: Corp | -; OrgID: EMEA | -; OrgID: US | -; OrgID: West | -; OrgID: East
Sales?$apply=groupby((rolluprecursive($root/Orgs,OrgTree,OrgID)),aggregate(Amount with sum as T)) => -; T: 25.00; OrgID: Corp | -; T: 7.25; OrgID: EMEA | -; T: 17.75; OrgID: US | -; T: 10.00; OrgID: West | -; T: 5.50; OrgID: East
Sales?$apply=groupby((rolluprecursive($root/Orgs,OrgTree,OrgID)),aggregate(Amount with sum as T))/filter(OrgID eq 'US') => -; T: 17.75; OrgID: US
Sales?$apply=groupby((CustomerID,rolluprecursive($root/Orgs,OrgTree,OrgID)),aggregate($count as N)) => -; N: 3; CustomerID: C1; OrgID: Corp | -; N: 1; CustomerID: C2; OrgID: Corp | -; N: 1; CustomerID: C3; OrgID: Corp | -; N: 1; CustomerID: C2; OrgID: EMEA | -; N: 3; CustomerID: C1; OrgID: US | -; N: 1; CustomerID: C3; OrgID: US | -; N: 1; CustomerID: C1; OrgID: West | -; N: 1; CustomerID: C3; OrgID: West | -; N: 1; CustomerID: C1; OrgID: East
Sales?$apply=groupby((rolluprecursive($root/Orgs,OrgTree,OrgID),Customer/Country),aggregate(Best)) => -; Best: 17.75; Customer/Country: US; OrgID: Corp | -; Best: 7.25; Customer/Country: NL; OrgID: Corp | -; Best: null; Customer/Country: FR; OrgID: Corp | -; Best: 7.25; Customer/Country: NL; OrgID: EMEA | -; Best: 17.75; Customer/Country: US; OrgID: US | -; Best: null; Customer/Country: FR; OrgID: US | -; Best: 10.00; Customer/Country: US; OrgID: West | -; Best: null; Customer/Country: FR; OrgID: West | -; Best: 5.50; Customer/Country: US; OrgID: East
Sales?$apply=groupby((rolluprecursive($root/Orgs,OrgTree,OrgID)),topcount(1,Amount)/aggregate(ID with max as M)) => -; M: 1; OrgID: Corp | -; M: 3; OrgID: EMEA | -; M: 1; OrgID: US | -; M: 1; OrgID: West | -; M: 2; OrgID: East
Sales?$apply=groupby((rolluprecursive($root/Orgs,OrgTree,OrgID)),filter(Amount gt 6)/groupby((ID,Amount))) => -; ID: 1; Amount: 10.00; OrgID: Corp | -; ID: 3; Amount: 7.25; OrgID: Corp | -; ID: 3; Amount: 7.25; OrgID: EMEA | -; ID: 1; Amount: 10.00; OrgID: US | -; ID: 1; Amount: 10.00; OrgID: West
Sales?$apply=groupby((rolluprecursive($root/Orgs,OrgTree,Org/ParentID)),aggregate($count as N)) => -; N: 5; Org/ParentID: Corp | -; N: 3; Org/ParentID: US
Sales?$apply=groupby((rolluprecursive($root/Orgs,OrgTree,CustomerID)),aggregate($count as N)) =>
Sales?$apply=filter(ID eq 99)/groupby((rolluprecursive($root/Orgs,OrgTree,OrgID)),aggregate($count as N)) =>
Sales?$apply=filter(ID eq 5)/groupby((rolluprecursive($root/Orgs,OrgTree,OrgID)),aggregate($count as N)) =>
// Shown nodes: those of a pipeline over the nodes, in its order, each once where it first stands.
Sales?$apply=groupby((rolluprecursive($root/Orgs,OrgTree,OrgID,filter(ID eq 'Lab'))),aggregate($count as N)) =>
Sales?$apply=groupby((rolluprecursive($root/Orgs,OrgTree,OrgID,filter(ID eq 'US'))),aggregate(Amount with sum as T)) => -; T: 17.75; OrgID: US
Sales?$apply=groupby((rolluprecursive($root/Orgs,OrgTree,OrgID,orderby(ID desc))),aggregate($count as N)) => -; N: 2; OrgID: West | -; N: 4; OrgID: US | -; N: 1; OrgID: East | -; N: 1; OrgID: EMEA | -; N: 5; OrgID: Corp
Sales?$apply=groupby((rolluprecursive($root/Orgs,OrgTree,OrgID,concat(filter(ID eq 'US'),identity,filter(ID eq 'Corp')))),aggregate($count as N)) => -; N: 4; OrgID: US | -; N: 5; OrgID: Corp | -; N: 1; OrgID: EMEA | -; N: 2; OrgID: West | -; N: 1; OrgID: East
Sales?$apply=groupby((rolluprecursive($root/Orgs,OrgTree,OrgID,traverse($root/Orgs,OrgTree,ID,postorder))),aggregate($count as N)) => -; N: 1; OrgID: EMEA | -; N: 2; OrgID: West | -; N: 1; OrgID: East | -; N: 4; OrgID: US | -; N: 5; OrgID: Corp
Sales?$apply=groupby((rolluprecursive($root/Orgs,OrgTree,OrgID,ancestors($root/Orgs,OrgTree,ID,filter(ID eq 'East'),keep start))),aggregate($count as N)) => -; N: 5; OrgID: Corp | -; N: 4; OrgID: US | -; N: 1; OrgID: East
Sales?$apply=groupby((CustomerID,rolluprecursive($root/Orgs,OrgTree,OrgID,skip(3)/top(2))),aggregate($count as N)) => -; N: 1; CustomerID: C1; OrgID: West | -; N: 1; CustomerID: C3; OrgID: West | -; N: 1; CustomerID: C1; OrgID: East
Sales?$apply=groupby((rolluprecursive($root/Orgs,OrgTree,OrgID,filter(length(ID) mul 9223372036854775807 gt 0))),aggregate($count as N)) => Range
// Keys and inner pipelines past their range.
Sales?$apply=compute(Amount mul 100000000000000000 as X)/groupby((X,rolluprecursive($root/Orgs,OrgTree,OrgID)),aggregate($count as N)) => Range
Sales?$apply=groupby((rolluprecursive($root/Orgs,OrgTree,OrgID)),filter(Amount mul 100000000000000000 gt 0)/aggregate($count as N)) => Range
// Groupings by nodes within groupings.
Sales?$apply=groupby((CustomerID),groupby((rolluprecursive($root/Orgs,OrgTree,OrgID)),aggregate($count as N))) => -; N: 3; OrgID: Corp; CustomerID: C1 | -; N: 3; OrgID: US; CustomerID: C1 | -; N: 1; OrgID: West; CustomerID: C1 | -; N: 1; OrgID: East; CustomerID: C1 | -; N: 1; OrgID: Corp; CustomerID: C2 | -; N: 1; OrgID: EMEA; CustomerID: C2 | -; N: 1; OrgID: Corp; CustomerID: C3 | -; N: 1; OrgID: US; CustomerID: C3 | -; N: 1; OrgID: West; CustomerID: C3
Sales?$apply=groupby((rolluprecursive($root/Orgs,OrgTree,OrgID)),groupby((CustomerID),aggregate($count as N))) => -; N: 3; CustomerID: C1; OrgID: Corp | -; N: 1; CustomerID: C2; OrgID: Corp | -; N: 1; CustomerID: C3; OrgID: Corp | -; N: 1; CustomerID: C2; OrgID: EMEA | -; N: 3; CustomerID: C1; OrgID: US | -; N: 1; CustomerID: C3; OrgID: US | -; N: 1; CustomerID: C1; OrgID: West | -; N: 1; CustomerID: C3; OrgID: West | -; N: 1; CustomerID: C1; OrgID: East
";
