//! Requests over the sample that have no typing, with the first step that has none.

/// Expressions, paths, names, and the operands of methods.
pub(crate) const VALUES: &str = r"
// Null stands elsewhere than beside a comparison.
Sales?$apply=filter(null) => at 1
Sales?$apply=filter(not null) => at 1
Sales?$apply=filter(null and true) => at 1
Sales?$apply=filter(true or null) => at 1
Sales?$apply=filter(null add 1 eq 1) => at 1
Sales?$apply=filter(-null eq 1) => at 1
Sales?$apply=filter(length(null) eq 1) => at 1
Sales?$apply=filter(startswith(null,'a')) => at 1
Sales?$apply=filter(year(null) eq 1) => at 1
Sales?$apply=compute(null as N) => at 1
Sales?$apply=orderby(null) => at 1
Sales?$apply=aggregate(null with countdistinct as N) => at 1
Sales?$apply=topcount(1,null) => at 1
// Booleans in an order.
Sales?$apply=filter(true gt false) => at 1
Sales?$apply=filter(true le null) => at 1
Sales?$apply=filter(null lt (ID eq 1)) => at 1
// Operands that do not compare.
Sales?$apply=filter(Amount eq 'a') => at 1
Sales?$apply=filter(Customer/Since ne 'a') => at 1
Sales?$apply=filter(true eq 1) => at 1
Sales?$apply=filter(ID ge Customer/Since) => at 1
Sales?$apply=filter('a' lt 1) => at 1
// No Booleans.
Sales?$apply=filter(ID) => at 1
Sales?$apply=filter(OrgID) => at 1
Sales?$apply=filter(Amount add 1) => at 1
Sales?$apply=filter(not ID) => at 1
Sales?$apply=filter(ID and true) => at 1
Sales?$apply=filter(true or Amount) => at 1
// No numbers.
Sales?$apply=filter(-OrgID eq 'a') => at 1
Sales?$apply=filter(-true) => at 1
Sales?$apply=filter(OrgID add 'a' eq 'b') => at 1
Sales?$apply=filter((true mul true) eq true) => at 1
Sales?$apply=filter(Customer/Since sub Customer/Since eq 1) => at 1
Sales?$apply=filter(Amount add OrgID eq 1) => at 1
// No texts, no days.
Sales?$apply=filter(length(ID) eq 1) => at 1
Sales?$apply=filter(length(Customer/Since) eq 1) => at 1
Sales?$apply=filter(year(OrgID) eq 1) => at 1
Sales?$apply=filter(month(1) eq 1) => at 1
Sales?$apply=filter(day(Amount) eq 1) => at 1
Sales?$apply=filter(startswith(ID,'1')) => at 1
Sales?$apply=filter(contains('a',1)) => at 1
Sales?$apply=filter(endswith(true,'e')) => at 1
// A scale of 10.
Sales?$apply=compute(Amount mul 0.12345678 as A) => at 1
Sales?$apply=compute(Amount mul Amount mul Amount mul Amount mul Amount as A) => at 1
Sales?$apply=filter(0.123456789 mul 0.1 gt 1) => at 1
// Paths that lead to no property.
Sales?$apply=filter(Nope eq 1) => at 1
Sales?$apply=filter(Customer/Nope eq 1) => at 1
Sales?$apply=filter(Customer eq 1) => at 1
Sales?$apply=filter(Nope/ID eq 1) => at 1
Sales?$apply=filter(ID/ID eq 1) => at 1
Customers?$apply=filter(Sales/ID eq 1) => at 1
Sales?$apply=aggregate($count as N)/filter(ID eq 1) => at 2
Sales?$apply=groupby((Customer/Country))/filter(Customer/Name eq 'a') => at 2
Customers?$apply=join(Sales as S)/filter(S eq 1) => at 2
Customers?$apply=join(Sales as S)/filter(S/Sales/ID eq 1) => at 2
Customers?$apply=join(Sales as S,aggregate($count as N))/filter(S/Amount gt 1) => at 2
// The first step without a typing is told.
Sales?$apply=identity/skip(1)/filter(Nope eq 1)/filter(null) => at 3
Sales?$apply=top(1)/orderby(Amount,Nope desc) => at 2
Sales?$apply=compute(1 as A)/filter(A eq 1)/filter(B eq 1) => at 3
Sales?$apply=groupby((OrgID))/identity/identity/compute(Amount as A) => at 4
// Names that are not free.
Sales?$apply=compute(Amount as Amount) => at 1
Sales?$apply=compute(1 as Customer) => at 1
Sales?$apply=compute(1 as CustomerID) => at 1
Sales?$apply=compute(1 as A)/compute(2 as A) => at 2
Sales?$apply=groupby((Customer/Country))/compute(1 as Customer) => at 2
Customers?$apply=join(Sales as S)/compute(1 as S) => at 2
Customers?$apply=join(Sales as S,aggregate($count as N))/compute(1 as S) => at 2
Sales?$apply=concat(identity,aggregate($count as N))/compute(1 as Amount) => at 2
Sales?$apply=concat(identity,aggregate($count as N))/compute(1 as N) => at 2
Customers?$apply=join(Sales as Name) => at 1
Customers?$apply=join(Sales as Sales) => at 1
Customers?$apply=join(Sales as S)/join(Sales as S) => at 2
Customers?$apply=outerjoin(Sales as S,aggregate($count as N))/outerjoin(Sales as S) => at 2
Customers?$apply=compute(1 as S)/join(Sales as S) => at 2
// Equal names, and columns that see the input alone.
Sales?$apply=compute(1 as A,2 as A) => at 1
Sales?$apply=compute(1 as A,A add 1 as B) => at 1
Sales?$apply=aggregate($count as N,Amount with sum as N) => at 1
Sales?$apply=aggregate(Best,Amount with sum as Best) => at 1
Sales?$apply=aggregate(Best,Best) => at 1
// Operands of methods.
Sales?$apply=aggregate(OrgID with sum as T) => at 1
Sales?$apply=aggregate(Customer/Since with sum as T) => at 1
Sales?$apply=aggregate(true with sum as T) => at 1
Sales?$apply=aggregate(ID gt 1 with min as T) => at 1
Sales?$apply=aggregate(true with max as T) => at 1
Sales?$apply=aggregate(Nope with countdistinct as T) => at 1
// Custom aggregates.
Sales?$apply=aggregate(Nope) => at 1
Sales?$apply=aggregate(Amount) => at 1
Customers?$apply=aggregate(Best) => at 1
Sales?$apply=aggregate($count as N)/aggregate(Best) => at 2
Sales?$apply=groupby((CustomerID))/aggregate(Best) => at 2
Sales?$apply=concat(identity,aggregate($count as N))/aggregate(Best) => at 2
Customers?$apply=join(Sales as S)/aggregate(Best) => at 2
Sales?$apply=aggregate(Best)/aggregate(Best) => at 2
";

/// Groups, concatenations, joins, selections and hierarchies.
pub(crate) const TRANSFORMATIONS: &str = r"
// Keys.
Sales?$apply=groupby((Nope)) => at 1
Sales?$apply=groupby((Customer)) => at 1
Sales?$apply=groupby((OrgID,OrgID)) => at 1
Sales?$apply=groupby((OrgID,rollup(OrgID,ID))) => at 1
Sales?$apply=groupby((rollup(OrgID,ID,OrgID))) => at 1
Sales?$apply=groupby((rollup($all,Customer/Nope))) => at 1
Sales?$apply=groupby((rollup(OrgID,ID),rollup(Amount,CustomerID))) => at 1
Sales?$apply=groupby((rollup($all,ID),rolluprecursive($root/Orgs,OrgTree,OrgID))) => at 1
Sales?$apply=groupby((rolluprecursive($root/Orgs,OrgTree,OrgID),rolluprecursive($root/Orgs,OrgTree,CustomerID))) => at 1
Sales?$apply=groupby((OrgID,rolluprecursive($root/Orgs,OrgTree,OrgID))) => at 1
Customers?$apply=join(Sales as S)/groupby((S)) => at 2
// Keys against what T leaves.
Sales?$apply=groupby((OrgID),aggregate($count as OrgID)) => at 1
Sales?$apply=groupby((Customer/Country),aggregate($count as Customer)) => at 1
Sales?$apply=groupby((rollup(Customer/Country,ID)),aggregate($count as ID)) => at 1
Sales?$apply=groupby((rolluprecursive($root/Orgs,OrgTree,OrgID)),aggregate($count as OrgID)) => at 1
Sales?$apply=concat(aggregate($count as Customer),groupby((Customer/Country)))/groupby((Customer),aggregate(Customer/Country with max as M)/groupby((M))/concat(identity,aggregate(M with max as Customer))) => at 2
Sales?$apply=concat(aggregate($count as Customer),groupby((Customer/Country)))/groupby((Customer),groupby((Customer/Country))) => at 2
Sales?$apply=compute(1 as A)/groupby((A),top(1)) => at 2
Sales?$apply=compute(1 as A)/groupby((ID,rollup(OrgID,A)),identity) => at 2
Customers?$apply=join(Sales as S)/groupby((S/OrgID),identity) => at 2
Customers?$apply=join(Sales as S)/groupby((S/OrgID),aggregate($count as S)) => at 2
Sales?$apply=groupby((OrgID),filter(Nope eq 1)) => at 1
Sales?$apply=groupby((OrgID),aggregate($count as N)/filter(OrgID eq 'a')) => at 1
// Recursive rollups.
Sales?$apply=groupby((rolluprecursive($root/Orgs,Nope,OrgID))) => at 1
Sales?$apply=groupby((rolluprecursive($root/Customers,OrgTree,OrgID))) => at 1
Sales?$apply=groupby((rolluprecursive($root/Nope,OrgTree,OrgID))) => at 1
Sales?$apply=groupby((rolluprecursive($root/Orgs,OrgTree,ID))) => at 1
Sales?$apply=groupby((rolluprecursive($root/Orgs,OrgTree,Nope))) => at 1
Sales?$apply=groupby((rolluprecursive($root/Orgs,OrgTree,Org))) => at 1
Sales?$apply=groupby((rolluprecursive($root/Orgs,OrgTree,OrgID,filter(OrgID eq 'a')))) => at 1
Sales?$apply=groupby((rolluprecursive($root/Orgs,OrgTree,OrgID,groupby((ID))))) => at 1
Sales?$apply=groupby((rolluprecursive($root/Orgs,OrgTree,OrgID,aggregate($count as N)))) => at 1
Sales?$apply=groupby((rolluprecursive($root/Orgs,OrgTree,OrgID,concat(identity,groupby((ID)))))) => at 1
Sales?$apply=groupby((rolluprecursive($root/Orgs,OrgTree,OrgID)),identity) => at 1
Sales?$apply=groupby((rolluprecursive($root/Orgs,OrgTree,OrgID)),groupby((ID),top(1))) => at 1
// Concatenations.
Sales?$apply=concat(identity,filter(Nope eq 1)) => at 1
Sales?$apply=concat(filter(null),identity) => at 1
Sales?$apply=concat(aggregate($count as Amount),identity) => at 1
Sales?$apply=concat(identity,identity,aggregate(OrgID with max as ID)) => at 1
Sales?$apply=concat(aggregate($count as N),aggregate(OrgID with max as N)) => at 1
Sales?$apply=concat(aggregate(Amount with sum as T),aggregate(ID with sum as T)) => at 1
Sales?$apply=concat(aggregate(Amount with sum as T),aggregate(Amount mul 1.5 with sum as T)) => at 1
Customers?$apply=concat(join(Sales as S),outerjoin(Sales as S,aggregate(ID with countdistinct as Amount))) => at 1
Customers?$apply=concat(join(Sales as S,aggregate($count as N)),join(Sales as S,aggregate(OrgID with min as N))) => at 1
// Joins.
Sales?$apply=join(Customer as C) => at 1
Sales?$apply=join(Amount as C) => at 1
Sales?$apply=join(Nope as C) => at 1
Customers?$apply=join(Sales as S,filter(Country eq 'US')) => at 1
Customers?$apply=join(Sales as S,join(Sales as T)) => at 1
Customers?$apply=aggregate($count as N)/join(Sales as S) => at 2
Customers?$apply=concat(identity,aggregate($count as N))/join(Sales as S) => at 2
Customers?$apply=concat(identity,groupby((Country)))/outerjoin(Sales as S) => at 2
Customers?$apply=join(Sales as S)/join(S as T) => at 2
// Selections.
Sales?$apply=topcount(1,Nope) => at 1
Sales?$apply=topsum(1,OrgID) => at 1
Sales?$apply=bottomsum(1.50,Customer/Since) => at 1
Sales?$apply=toppercent(50,true) => at 1
Sales?$apply=bottompercent(50,Nope) => at 1
Sales?$apply=topcount(1,OrgID)/topsum(0,OrgID) => at 2
// Ancestors, descendants, traversals.
Sales?$apply=ancestors($root/Orgs,Nope,OrgID,identity) => at 1
Sales?$apply=ancestors($root/Sales,OrgTree,OrgID,identity) => at 1
Sales?$apply=descendants($root/Orgs,OrgTree,ID,identity) => at 1
Sales?$apply=descendants($root/Orgs,OrgTree,Nope,identity) => at 1
Sales?$apply=ancestors($root/Orgs,OrgTree,OrgID,filter(Nope eq 1)) => at 1
Sales?$apply=ancestors($root/Orgs,OrgTree,OrgID,groupby((ID)),keep start) => at 1
Sales?$apply=descendants($root/Orgs,OrgTree,OrgID,aggregate($count as OrgID),1) => at 1
Orgs?$apply=traverse($root/Orgs,Nope,ID,preorder) => at 1
Customers?$apply=traverse($root/Orgs,OrgTree,Since,preorder) => at 1
Sales?$apply=traverse($root/Orgs,OrgTree,OrgID,preorder,Amount) => at 1
Sales?$apply=traverse($root/Orgs,OrgTree,OrgID,postorder,ParentID,null) => at 1
Sales?$apply=aggregate($count as N)/traverse($root/Orgs,OrgTree,N,postorder) => at 2
";

/// Lines that are no requests, so that typing is not asked.
pub(crate) const NO_TEXT: &str = r"
// Numbers and lists that no text has.
Sales?$apply=topsum(-1,Amount) => no text at 1
Sales?$apply=bottomsum(-0.5,Amount) => no text at 1
Sales?$apply=toppercent(101,Amount) => no text at 1
Sales?$apply=skip(9223372036854775808) => no text at 1
Sales?$apply=identity/top(-1) => no text at 2
Sales?$apply=filter(ID eq 9223372036854775808) => no text at 1
Sales?$apply=filter(Amount eq 0.1234567890) => no text at 1
Sales?$apply=groupby((rollup(OrgID))) => no text at 1
Sales?$apply=identity/groupby((rollup($all))) => no text at 2
Sales?$apply=groupby(()) => no text at 1
Sales?$apply=concat(identity) => no text at 1
Sales?$apply=ancestors($root/Orgs,OrgTree,OrgID,identity,0) => no text at 1
Sales?$apply=identity/skip(1)/aggregate() => no text at 3
";
